ghost use Rattle.std.specs.Prelude.{◌≡◌, ◌<◌, ◌≤◌, length, replicate, slice_set, IfSome, MatchOption};
ghost use Rattle.volume_model.specs.Modes.{mode_of, modes_after_mark, source_of, IsSource, HasNoSource};

use std::marker::Model;
use volume_model::{Mark, Mode};

/// The most replicas that a volume has.
pub const MOST_REPLICAS: usize = 8;

/// The mode of each replica. A contract sees the list.
#[derive(Debug, Drop)]
pub struct ModeTable {
    modes: [Mode; MOST_REPLICAS],
    count: u8,
}

impl Model for ModeTable {
    ghost use Rattle.std.specs.Prelude.{◌≡◌, ◌≤◌, List, length, take};
    ghost use Rattle.volume_model.specs.declared.mode.Mode.{Mode};

    ghost Value = { List Mode };

    ghost view = { λ t. take t.count t.modes };

    ghost invariant = { λ t. (length t.modes ≡ 8) × (t.count ≤ 8) };
}

impl ModeTable {
    /// So many replicas, each read and written.
    pub fn new(replicas: u8) -> ModeTable
        requires { replicas ≤ 8 }
        ensures { result ≡ replicate replicas Mode.Rw }
    {
        ModeTable {
            modes: [Mode::Rw; MOST_REPLICAS],
            count: replicas,
        }
    }

    /// Replicas of these modes.
    pub fn of(modes: &[Mode]) -> ModeTable
        requires { length modes.now ≤ 8 }
        ensures { result ≡ modes.now }
    {
        let mut places = [Mode::Err; MOST_REPLICAS];
        places[..modes.len()].copy_from_slice(modes);
        ModeTable {
            modes: places,
            count: modes.len() as u8,
        }
    }

    /// How many replicas there are, failed ones among them.
    pub fn replica_count(&self) -> u8
        ensures value { result ≡ length self.now }
        ensures most { result ≤ 8 }
    {
        self.count
    }

    pub fn as_slice(&self) -> &[Mode]
        ensures { result.now ≡ self.now }
    {
        &self.modes[..self.count as usize]
    }

    /// The mode of a replica; one that is not there has failed.
    pub fn mode(&self, replica: u8) -> Mode
        ensures { result ≡ mode_of self.now replica }
    {
        if replica < self.count {
            self.modes[replica as usize]
        } else {
            Mode::Err
        }
    }

    /// The lowest replica that is read and written.
    pub fn source(&self) -> Option<u8>
        ensures value { result ≡ source_of self.now }
        ensures found { MatchOption result (HasNoSource self.now) (IsSource self.now) }
        ensures within { IfSome result (λ replica. replica < length self.now) }
    {
        (0..self.count).find(|replica| self.mode(*replica) == Mode::Rw)
    }

    /// Makes the modes what they are after the mark.
    pub fn follow(&mut self, mark: &Mark)
        ensures { self.new ≡ modes_after_mark self.old mark.now }
    {
        match mark {
            Mark::Purged(_) => {}
            Mark::Fault { replica, .. } => self.fault(*replica),
            Mark::Failed(replica) => self.fault(*replica),
            Mark::Added { replica, .. } => self.add(*replica),
            Mark::Promoted(replica) => self.promote(*replica),
            Mark::Aborted(replica) => self.fault(*replica),
        }
    }

    /// The replica has failed.
    pub fn fault(&mut self, replica: u8)
        ensures { self.new ≡ slice_set self.old replica Mode.Err }
    {
        self.set(replica, Mode::Err);
    }

    /// The replica is rebuilt from now on.
    pub fn add(&mut self, replica: u8)
        ensures { self.new ≡ slice_set self.old replica Mode.Wo }
    {
        self.set(replica, Mode::Wo);
    }

    /// The replica is read and written from now on.
    pub fn promote(&mut self, replica: u8)
        ensures { self.new ≡ slice_set self.old replica Mode.Rw }
    {
        self.set(replica, Mode::Rw);
    }

    /// A replica that is not there stays so.
    fn set(&mut self, replica: u8, mode: Mode)
        ensures { self.new ≡ slice_set self.old replica mode }
    {
        if replica < self.count {
            self.modes[replica as usize] = mode;
        }
    }
}
