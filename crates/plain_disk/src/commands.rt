ghost use Rattle.std.specs.Prelude.{◌≡◌, ◌+◌, ◌^◌, ◌<◌, ℕ, List, IfOk, OnOk, OnErr};
ghost use Rattle.volume_model.specs.declared.mode.Mode.{Mode};
ghost use Rattle.volume_model.specs.PlainState.{taken, reverted};
ghost use Rattle.volume_model.specs.PlainStep.{plain_step, room_refusal};

use crate::copies::{WholeCopy, copied_bytes, drop_copies};
use crate::disk::PlainDisk;
use crate::snapshots::{TakenSnapshot, is_live, is_used, mark};
use std::alloc::{AllocError, Global};
use vol_units::MOST_LAYERS;
use volume_model::{Call, Command, LayerName, Mode, Refusal, Reply, Sequence};

impl PlainDisk {
    /// Answers a command, and is then what the command leaves.
    pub(crate) fn command(
        &mut self,
        alloc: Global,
        modes: &[Mode],
        command: &Command,
    ) -> Result<Reply, AllocError>
        requires number { self.old.volume.snapshots.number + 1 < 2 ^ 64 }
        ensures step { IfOk result
            (λ reply. plain_step modes.now self.old (Call.Command command.now) ≡ (self.new, reply)) }
        ensures err { OnErr result (self.new ≡ self.old) }
    {
        match command {
            Command::Snapshot(name) => self.snapshot(alloc, LayerName::from(*name)),
            Command::Remove(name) => Ok(self.remove(name)),
            Command::Revert(name) => self.revert(alloc, name),
            // What these change beside the modes is told by their marks, which `follow` takes.
            Command::Purge | Command::Fail(_) => Ok(Reply::Done),
            Command::Add(replica) => Ok(self.add(modes, *replica)),
            Command::Status => self.status(alloc, modes),
            Command::Backup { snapshot, .. } => Ok(self.backup(snapshot)),
        }
    }

    fn snapshot(&mut self, alloc: Global, name: LayerName) -> Result<Reply, AllocError>
        requires number { self.old.volume.snapshots.number + 1 < 2 ^ 64 }
        ensures step { IfOk result (λ reply. (modes : List Mode)
            → plain_step modes self.old (Call.Command (Command.Snapshot name)) ≡ (self.new, reply)) }
        ensures err { OnErr result (self.new ≡ self.old) }
    {
        if is_used(&self.used, &name) {
            return Ok(Reply::Refused(Refusal::NameUsed));
        }
        if let Some(why) = self.room_refusal() {
            return Ok(Reply::Refused(why));
        }
        self.take(alloc, name)?;
        Ok(Reply::Done)
    }

    /// Copies the disk under the name.
    pub(crate) fn take(&mut self, alloc: Global, name: LayerName) -> Result<(), AllocError>
        requires number { self.old.volume.snapshots.number + 1 < 2 ^ 64 }
        ensures ok { OnOk result (self.new ≡ taken self.old name) }
        ensures err { OnErr result (self.new ≡ self.old) }
    {
        // All memory is taken first: from here on the snapshot cannot fail.
        let bytes = Vec::from_slice(alloc, &self.bytes)?;
        self.copies.reserve(1)?;
        self.snapshots.reserve(1)?;
        self.used.reserve(1)?;
        let snapshot = TakenSnapshot {
            name,
            parent: self.on,
            marked: false,
        };
        self.copies.insert(0, WholeCopy { name, bytes }).unwrap();
        self.snapshots.insert(0, snapshot).unwrap();
        if !is_used(&self.used, &name) {
            self.used.insert(0, name).unwrap();
        }
        self.on = Some(name);
        self.number += 1;
        Ok(())
    }

    /// Why there is no room for one layer more, where there is none.
    fn room_refusal(&self) -> Option<Refusal>
        ensures { result ≡ room_refusal self.now.volume }
    {
        (self.snapshots.len() + 1 >= MOST_LAYERS).then_some(Refusal::ChainFull)
    }

    fn remove(&mut self, name: &LayerName) -> Reply
        ensures { (modes : List Mode)
            → plain_step modes self.old (Call.Command (Command.Remove name.now)) ≡ (self.new, result) }
    {
        if !is_live(&self.snapshots, name) {
            return Reply::Refused(Refusal::NoSuchSnapshot);
        }
        drop_copies(&mut self.copies, name);
        mark(&mut self.snapshots, name);
        Reply::Done
    }

    fn revert(&mut self, alloc: Global, name: &LayerName) -> Result<Reply, AllocError>
        requires number { self.old.volume.snapshots.number + 1 < 2 ^ 64 }
        ensures step { IfOk result (λ reply. (modes : List Mode)
            → plain_step modes self.old (Call.Command (Command.Revert name.now)) ≡ (self.new, reply)) }
        ensures err { OnErr result (self.new ≡ self.old) }
    {
        if !is_live(&self.snapshots, name) {
            return Ok(Reply::Refused(Refusal::NoSuchSnapshot));
        }
        self.put_back(alloc, *name)?;
        Ok(Reply::Done)
    }

    /// Copies what was copied under the name back.
    fn put_back(&mut self, alloc: Global, name: LayerName) -> Result<(), AllocError>
        requires number { self.old.volume.snapshots.number + 1 < 2 ^ 64 }
        ensures ok { OnOk result (self.new ≡ record self.old { volume = reverted self.old.volume name }) }
        ensures err { OnErr result (self.new ≡ self.old) }
    {
        self.bytes = Vec::from_slice(alloc, copied_bytes(&self.copies, &name))?;
        self.on = Some(name);
        self.number += 1;
        Ok(())
    }

    fn add(&self, modes: &[Mode], replica: u8) -> Reply
        ensures { plain_step modes.now self.now (Call.Command (Command.Add replica)) ≡ (self.now, result) }
    {
        let why = match Mode::of(modes, replica) {
            Mode::Rw | Mode::Wo => Some(Refusal::InUse),
            Mode::Err => self.room_refusal(),
        };
        match why {
            Some(why) => Reply::Refused(why),
            None => Reply::Done,
        }
    }

    fn status(&self, alloc: Global, modes: &[Mode]) -> Result<Reply, AllocError>
        ensures { IfOk result
            (λ reply. plain_step modes.now self.now (Call.Command Command.Status) ≡ (self.now, reply)) }
    {
        Ok(Reply::Status {
            layers: self.snapshots.len() as u64 + 1,
            modes: Sequence::of(Vec::from_slice(alloc, modes)?),
        })
    }

    /// A backup reads the snapshot's copy, and leaves the disk as it was.
    fn backup(&self, snapshot: &LayerName) -> Reply
        ensures { (modes : List Mode) (backup : List ℕ) → plain_step modes self.now
            (Call.Command (Command.Backup backup snapshot.now)) ≡ (self.now, result) }
    {
        if !is_live(&self.snapshots, snapshot) {
            return Reply::Refused(Refusal::NoSuchSnapshot);
        }
        Reply::Done
    }
}
