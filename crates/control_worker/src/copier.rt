//! The pages of a rebuild go over the stream's lines.

ghost use Rattle.std.specs.Prelude.{◌≡◌, ℕ, [], length, true, IfOk};
ghost use Rattle.stream_steps.specs.Mine.{OwnCall, with_running};
ghost use Rattle.stream_steps.specs.Add.{HasAdd};
ghost use Rattle.client_worker.specs.Working.{IsServing, Stays};
ghost use Rattle.control_worker.specs.Whole.{GoesOn};
ghost use Rattle.control_worker.specs.Adding.{EndsAs};
ghost use Rattle.control_worker.specs.Copier.{AreLines, replica_for};

use crate::carrier::Carrier;
use crate::line::carry_on;
use client_worker::{Channel, Line};
use page_text::append_text;
use rebuild_worker::{Carried, Copied, CopyNext, CopyOut, CopyPut, CopySide, CopySteps, copy_all};
use std::alloc::{AllocError, Global};
use std::mem;
use std::sync::Wait;
use stream_steps::{AddSteps, NextPage, Page, PageIn, PageOut, PageRef, TicketNumber};

/// The add that has the turn, and between which replicas its pages go.
#[derive(Clone, Copy, Debug, PartialEq, Eq)]
struct CopyOf {
    turn: TicketNumber,
    source: u8,
    target: u8,
}

/// What pages are carried in.
#[derive(Drop)]
struct PageRooms {
    /// The blocks of the page in hand, once it was read.
    page: Page,
    /// Boxes that the last page without blocks left.
    spare: Page,
    /// Where frames arrive.
    arrivals: Vec<u8>,
}

impl PageRooms {
    /// With no memory yet.
    fn new(alloc: Global) -> PageRooms {
        PageRooms {
            page: Page::unmade(alloc),
            spare: Page::unmade(alloc),
            arrivals: Vec::new(alloc),
        }
    }
}

/// The steps of the rebuild of the stream's add, with the stream's lines.
#[derive(Drop)]
struct Copier<'a, C, L: Drop> {
    steps: &'a mut C,
    channels: &'a mut [Channel<L>],
    copy: CopyOf,
    hand: Option<PageRef>,
    read: bool,
    rooms: &'a mut PageRooms,
}

impl<'a, C: AddSteps, L: Line + Drop> CopySteps for Copier<'a, C, L> {
    ghost use Rattle.std.specs.Prelude.{ℕ, List, length, map, true};
    ghost use Rattle.outer_traits.specs.declared.ends.Ends.{Ends};
    ghost use Rattle.stream_steps.specs.Mine.{Mine};
    ghost use Rattle.control_worker.specs.Whole.{GoesOn};
    ghost use Rattle.control_worker.specs.Copier.{IsCopying, IsTextOn, work_of};

    ghost copying = { λ s. work_of (C.left s.steps.now) s.hand s.read (map (λ c. L.carried c.line) s.channels.now)
        (map (λ c. c.seq) s.channels.now) s.copy.source s.copy.target };

    ghost is_aborted = { λ s place. C.is_aborted s.steps.now place };

    ghost is_text = { λ s page text. IsTextOn (C.is_page s.steps.now) page text };

    // What the stream's worker knew once, and what it knows now is that with lines failed.
    ghost Fact = { Mine };

    ghost stays = { λ s m. GoesOn m (C.mine s.steps.now) };

    ghost Home = { C.Home × ℕ × ℕ × ℕ × List Ends × ℕ × ℕ };

    ghost home = { λ s. (
      C.home s.steps.now,
      s.steps.ghost_name,
      s.channels.ghost_name,
      length s.channels.now,
      map (λ c. L.ends c.line) s.channels.now,
      s.copy.source,
      s.copy.target,
    ) };

    ghost ready = { λ s. C.ready s.steps.now
        × IsCopying s.copy.turn s.copy.source s.copy.target (C.mine s.steps.now)
        (map (λ c. L.count c.line) s.channels.now) (map (λ c. L.carried c.line) s.channels.now)
        (C.begun s.steps.now true s.copy.source s.copy.target) (C.awaits s.steps.now) (C.is_page s.steps.now)
        s.hand s.read s.rooms.now.page };

    #[tactic(auto, using(crate::proofs::CopierLemmas::copy_step))]
    fn next<R: Wait>(&mut self, rt: &R) -> CopyNext {
        let next = self.steps.copy_next(rt, self.copy.turn);
        match &next {
            NextPage::Page(page) => {
                self.hand = Some(*page);
                self.read = false;
                CopyNext::Page(*page)
            }
            NextPage::All => CopyNext::All,
            NextPage::Ended(place) => CopyNext::Ended(*place),
        }
    }

    fn carry<R: Wait>(
        &mut self,
        rt: &R,
        alloc: Global,
        side: CopySide,
        frame: &mut [u8],
    ) -> Result<Carried, AllocError> {
        let _ = alloc;
        let replica = replica_for(side, self.copy.source, self.copy.target);
        self.rooms.arrivals.clear();
        self.rooms.arrivals.reserve(frame.len())?;
        let channel = &mut self.channels[replica as usize];
        let rooms = &mut *self.rooms;
        if carry_on(channel, frame, &mut rooms.arrivals) {
            return Ok(Carried::Whole);
        }
        let count = channel.line.faults();
        let place = self.steps.copy_fault(rt, self.copy.turn, replica, count);
        Ok(Carried::Ended(place))
    }

    #[tactic(auto, using(crate::proofs::CopierLemmas::copy_step))]
    fn out<R: Wait>(
        &mut self,
        rt: &R,
        alloc: Global,
        page: &PageRef,
        text: &mut Vec<u8>,
    ) -> Result<CopyOut, AllocError> {
        self.read = false;
        let mut blocks = mem::replace(&mut self.rooms.spare, Page::unmade(alloc)).lent(alloc)?;
        match self.steps.copy_out(rt, self.copy.turn, page, &mut blocks) {
            PageOut::Ended(place) => Ok(CopyOut::Ended(place)),
            PageOut::Empty => {
                self.rooms.page = Page::unmade(alloc);
                self.rooms.spare = blocks;
                self.read = true;
                Ok(CopyOut::Empty)
            }
            PageOut::Blocks => {
                let _made = blocks.is_made();
                append_text(text, &page.layer, &blocks)?;
                self.rooms.page = blocks;
                self.read = true;
                Ok(CopyOut::Text)
            }
        }
    }

    #[tactic(auto, using(crate::proofs::CopierLemmas::copy_step))]
    fn put<R: Wait>(
        &mut self,
        rt: &R,
        alloc: Global,
        page: &PageRef,
    ) -> Result<CopyPut, AllocError> {
        let mut blocks = mem::replace(&mut self.rooms.page, Page::unmade(alloc));
        self.hand = None;
        self.read = false;
        match self.steps.copy_in(rt, self.copy.turn, page, &mut blocks) {
            PageIn::Listed => Ok(CopyPut::Listed),
            PageIn::Ended(place) => Ok(CopyPut::Ended(place)),
        }
    }

    #[tactic(auto, using(crate::proofs::CopierLemmas::copy_step))]
    fn ended<R: Wait>(&mut self, rt: &R) -> Option<u64> {
        self.steps.aborted(rt, self.copy.turn)
    }
}

/// The replica to which a frame goes.
fn replica_for(side: CopySide, source: u8, target: u8) -> u8
    ensures { result ≡ replica_for side source target }
{
    match side {
        CopySide::Source => source,
        CopySide::Target => target,
    }
}

impl<C: AddSteps + Drop, L: Line + Drop> Carrier<C, L> {
    /// Copies all pages of the frozen layers from the source to the target, or until the rebuild is aborted. Out of
    /// memory leaves what was done.
    pub(crate) fn copy_pages<R: Wait>(
        &mut self,
        rt: &R,
        alloc: Global,
        t: TicketNumber,
        source: u8,
        target: u8,
    ) -> Result<Copied, AllocError>
        requires lines { AreLines (length self.old.channels) source target }
        requires turn { (r : ℕ) × (o : OwnCall) × HasAdd t r o (C.mine self.old.steps) }
        requires begun { C.begun self.old.steps true source target }
        ensures stays { Stays C.home L.ends self.old self.new }
        ensures goes { GoesOn (C.mine self.old.steps) (C.mine self.new.steps) }
        ensures begun { C.begun self.new.steps true source target }
        ensures ended { IfOk result (λ c. EndsAs c (C.left self.new.steps) (C.is_aborted self.new.steps)) }
    {
        let copy = CopyOf {
            turn: t,
            source,
            target,
        };
        let mut rooms = PageRooms::new(alloc);
        copy_over(
            rt,
            alloc,
            &mut self.steps,
            &mut self.channels,
            copy,
            &mut rooms,
        )
    }
}

/// Copies them by these steps over these lines, in these rooms.
fn copy_over<R: Wait, C: AddSteps, L: Line + Drop>(
    rt: &R,
    alloc: Global,
    steps: &mut C,
    channels: &mut [Channel<L>],
    copy: CopyOf,
    rooms: &mut PageRooms,
) -> Result<Copied, AllocError>
    requires serving { IsServing C.ready (λ s. with_running (C.mine s) []) L.count L.carried
        (record { steps = steps.old; channels = channels.old }) }
    requires lines { AreLines (length channels.old) copy.source copy.target }
    requires turn { (r : ℕ) × (o : OwnCall) × HasAdd copy.turn r o (C.mine steps.old) }
    requires begun { C.begun steps.old true copy.source copy.target }
    ensures serving { IsServing C.ready (λ s. with_running (C.mine s) []) L.count L.carried
        (record { steps = steps.new; channels = channels.new }) }
    ensures stays { Stays C.home L.ends (record { steps = steps.old; channels = channels.old })
        (record { steps = steps.new; channels = channels.new }) }
    ensures goes { GoesOn (C.mine steps.old) (C.mine steps.new) }
    ensures begun { C.begun steps.new true copy.source copy.target }
    ensures ended { IfOk result (λ c. EndsAs c (C.left steps.new) (C.is_aborted steps.new)) }
{
    let mut copier = Copier {
        steps,
        channels,
        copy,
        hand: None,
        read: false,
        rooms,
    };
    copy_all(rt, alloc, &mut copier)
}
