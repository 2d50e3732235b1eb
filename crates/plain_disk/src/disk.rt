ghost use Rattle.std.specs.Prelude.{◌≡◌, ◌+◌, ◌^◌, ◌<◌, List, IfOk, OnErr};
ghost use Rattle.volume_model.specs.declared.mode.Mode.{Mode};
ghost use Rattle.volume_model.specs.Disk.{zeros};
ghost use Rattle.volume_model.specs.PlainState.{state_of};
ghost use Rattle.volume_model.specs.PlainStep.{plain_step};

use crate::copies::WholeCopy;
use crate::snapshots::TakenSnapshot;
use std::alloc::{AllocError, Global};
use std::marker::Model;
use vol_units::{LONGEST_CALL, place_within};
use volume_model::{Call, LayerName, Mode, Refusal, Reply, Sequence};

/// A disk in one piece of memory, with a whole copy for each snapshot. Contracts see a plain state.
#[derive(Debug, Drop)]
pub struct PlainDisk {
    pub(crate) bytes: Vec<u8>,
    /// The newest first, as all lists here.
    pub(crate) copies: Vec<WholeCopy>,
    pub(crate) snapshots: Vec<TakenSnapshot>,
    /// The snapshot on which the head stands, if on one.
    pub(crate) on: Option<LayerName>,
    /// The head's number.
    pub(crate) number: u64,
    /// All names that snapshots were taken under.
    pub(crate) used: Vec<LayerName>,
}

impl Model for PlainDisk {
    ghost use Rattle.volume_model.specs.PlainState.{PlainState};

    ghost Value = { PlainState };

    ghost view = { λ d. record {
      volume = record {
        disk = d.bytes.items;
        copies = d.copies.items;
        snapshots = record { tree = d.snapshots.items; on = d.on; number = d.number };
      };
      used = d.used.items;
    } };
}

impl PlainDisk {
    /// A disk of so many zeros, of which no snapshot was taken.
    #[tactic(auto, unfolding(vol_units::specs::Bytes::zeros))]
    pub fn zeros(alloc: Global, size: usize) -> Result<PlainDisk, AllocError>
        ensures { IfOk result (λ disk. disk ≡ state_of (zeros size)) }
    {
        Ok(PlainDisk {
            bytes: vec![in alloc; 0; size]?,
            copies: Vec::new(alloc),
            snapshots: Vec::new(alloc),
            on: None,
            number: 0,
            used: Vec::new(alloc),
        })
    }

    /// The bytes of the disk.
    pub fn bytes(&self) -> &[u8]
        ensures { result.now ≡ self.now.volume.disk }
    {
        &self.bytes
    }

    pub fn head_number(&self) -> u64
        ensures { result ≡ self.now.volume.snapshots.number }
    {
        self.number
    }

    /// Answers a call on replicas of these modes, and is then what the call leaves.
    pub fn step(&mut self, alloc: Global, modes: &[Mode], call: &Call) -> Result<Reply, AllocError>
        requires number { self.old.volume.snapshots.number + 1 < 2 ^ 64 }
        ensures step { IfOk result (λ reply. plain_step modes.now self.old call.now ≡ (self.new, reply)) }
        ensures err { OnErr result (self.new ≡ self.old) }
    {
        match call {
            Call::Read { offset, length } => self.read(alloc, *offset, *length),
            Call::Write { offset, bytes } => Ok(self.write(*offset, bytes.as_slice())),
            Call::Ping => Ok(Reply::Done),
            Call::Other(_) => Ok(Reply::Refused(Refusal::Unsupported)),
            Call::Command(command) => self.command(alloc, modes, command),
        }
    }

    fn read(&self, alloc: Global, offset: i64, length: u32) -> Result<Reply, AllocError>
        ensures { IfOk result (λ reply. (modes : List Mode)
            → plain_step modes self.now (Call.Read offset length) ≡ (self.now, reply)) }
    {
        if length > LONGEST_CALL {
            return Ok(Reply::Refused(Refusal::TooLong));
        }
        let length = length as usize;
        let Some(at) = place_within(offset, length, self.bytes.len()) else {
            return Ok(Reply::Refused(Refusal::OutOfRange));
        };
        let bytes = Vec::from_slice(alloc, &self.bytes[at..at + length])?;
        Ok(Reply::Read(Sequence::of(bytes)))
    }

    fn write(&mut self, offset: i64, bytes: &[u8]) -> Reply
        ensures { (modes : List Mode)
            → plain_step modes self.old (Call.Write offset bytes.now) ≡ (self.new, result) }
    {
        let Some(at) = place_within(offset, bytes.len(), self.bytes.len()) else {
            return Reply::Refused(Refusal::OutOfRange);
        };
        self.bytes[at..at + bytes.len()].copy_from_slice(bytes);
        Reply::Done
    }
}
