use crate::backup::size_in;
use crate::passing::pass_answered;
use crate::steps::Steps;
use outer_traits::Gate;
use std::alloc::{AllocError, Global};
use std::sync::Wait;
use stream_steps::{BackupSteps, Pages};
use vol_units::VolumeSize;
use volume_core::{NotThis, Reply, TicketNumber};
use volume_maint::LayerName;
use world_holder::Holder;

impl<H: Holder, G: Gate> BackupSteps for Steps<H, G> {
    ghost use Rattle.volume_backup.specs.Copies.{copies_told};
    ghost use Rattle.volume_backup.specs.Answers.{AsksPages};

    ghost copies = { λ a. copies_told (H.seen a.holder) };

    ghost asks = { λ a name base pages. AsksPages (H.seen a.holder) name base pages };

    fn copy_size<R: Wait>(
        &mut self,
        rt: &R,
        t: TicketNumber,
        name: &LayerName,
    ) -> Option<VolumeSize> {
        let _ = t;
        let world = self.holder.take(rt, self.stream);
        let size = size_in(&world, name);
        self.holder.put(self.stream, world);
        size
    }

    fn backup_pages<R: Wait>(
        &mut self,
        rt: &R,
        alloc: Global,
        t: TicketNumber,
        name: &LayerName,
        base: &Option<LayerName>,
    ) -> Result<Pages, AllocError> {
        let _ = t;
        let world = self.holder.take(rt, self.stream);
        let pages = volume_backup::backup_pages(&world, alloc, name, base);
        self.holder.put(self.stream, world);
        pages
    }

    fn lowest<R: Wait>(&mut self, rt: &R, t: TicketNumber) -> Option<u8> {
        let _ = t;
        let world = self.holder.take(rt, self.stream);
        let source = world.journal.source();
        self.holder.put(self.stream, world);
        source
    }

    fn snap_page<R: Wait>(
        &mut self,
        rt: &R,
        t: TicketNumber,
        replica: u8,
        name: &LayerName,
        page: u32,
        into: &mut [u8],
    ) -> Result<(), NotThis> {
        let _ = t;
        let mut world = self.holder.take(rt, self.stream);
        let answer = volume_backup::snap_page(&mut world, replica, name, page, into);
        self.holder.put(self.stream, world);
        answer
    }

    fn backup_fault<R: Wait>(
        &mut self,
        rt: &R,
        t: TicketNumber,
        replica: u8,
        count: u64,
    ) -> Result<(), NotThis> {
        let _ = t;
        let mut world = self.holder.take(rt, self.stream);
        let answer = world.fault(self.stream, replica, count);
        self.holder.put(self.stream, world);
        answer
    }

    fn end_backup<R: Wait>(
        &mut self,
        rt: &R,
        t: TicketNumber,
        reply: Reply,
    ) -> Result<u64, NotThis> {
        let mut world = self.holder.take(rt, self.stream);
        let answer = volume_maint::end_maint(&mut world, t, reply);
        self.holder.put(self.stream, world);
        pass_answered(&self.gate, self.stream, &mut self.ended, &answer);
        answer
    }
}
