ghost use Rattle.std.specs.Prelude.{◌≡◌, ◌≢◌, ◌≤◌, ◌<◌, ℕ, [], length, map, slice_set, false, true, MatchOption};
ghost use Rattle.volume_model.specs.Modes.{mode_of};
ghost use Rattle.step_answers.specs.Parts.{part_at, part_for, is_pending_at};

use mode_table::MOST_REPLICAS;
use std::marker::Model;
use volume_model::Mode;

/// How far a started call has come on one replica.
#[derive(Clone, Copy, Debug, PartialEq, Eq)]
pub enum Part {
    /// The replica has none of the call.
    Apart,
    Owed,
    Taken,
    Acked,
}

/// How far a call has come on each replica. Contracts see the list, which is empty before the call starts.
#[derive(Debug, Drop)]
pub struct Parts {
    parts: [Part; MOST_REPLICAS],
    count: u8,
}

impl Model for Parts {
    ghost use Rattle.std.specs.Prelude.{◌≡◌, ◌≤◌, List, length, take};
    ghost use Rattle.step_answers.specs.declared.parts.Part.{Part};

    ghost Value = { List Part };

    ghost view = { λ p. take p.count p.parts };

    ghost invariant = { λ p. (length p.parts ≡ 8) × (p.count ≤ 8) };
}

impl Parts {
    /// Of a call that has not started.
    pub fn none() -> Parts
        ensures { result ≡ [] }
    {
        Parts {
            parts: [Part::Apart; MOST_REPLICAS],
            count: 0,
        }
    }

    /// Of a call that starts now, on replicas of these modes.
    pub fn of_modes(modes: &[Mode]) -> Parts
        requires { length modes.now ≤ 8 }
        ensures { result ≡ map part_for modes.now }
    {
        let mut parts = [Part::Apart; MOST_REPLICAS];
        for r in 0..modes.len() {
            parts[r] = part_for(modes[r]);
        }
        Parts {
            parts,
            count: modes.len() as u8,
        }
    }

    /// The same of each replica.
    pub fn copied(&self) -> Parts
        ensures { result ≡ self.now }
    {
        Parts {
            parts: self.parts,
            count: self.count,
        }
    }

    /// Of one replica; one that is not there has none.
    pub fn at(&self, replica: u8) -> Part
        ensures { result ≡ part_at self.now replica }
    {
        if replica < self.count {
            self.parts[replica as usize]
        } else {
            Part::Apart
        }
    }

    /// The first replica that has acknowledged.
    pub fn first_acked(&self) -> Option<u8>
        ensures { MatchOption result
            ((r : ℕ) → part_at self.now r ≢ Part.Acked) (λ r. part_at self.now r ≡ Part.Acked) }
    {
        for r in 0..self.count {
            if self.at(r) == Part::Acked {
                return Some(r);
            }
        }
        None
    }

    /// The first replica of these modes that has still to acknowledge.
    pub fn first_pending(&self, modes: &[Mode]) -> Option<u8>
        requires { length modes.now ≤ 8 }
        ensures { MatchOption result
            ((r : ℕ) → r < length modes.now → is_pending_at (mode_of modes.now r) (part_at self.now r) ≡ false)
            (λ r. is_pending_at (mode_of modes.now r) (part_at self.now r) ≡ true) }
    {
        for r in 0..modes.len() {
            if is_pending(modes[r], self.at(r as u8)) {
                return Some(r as u8);
            }
        }
        None
    }

    /// A replica that is not there stays so.
    pub fn set(&mut self, replica: u8, part: Part)
        ensures { self.new ≡ slice_set self.old replica part }
    {
        if replica < self.count {
            self.parts[replica as usize] = part;
        }
    }
}

/// What a call that starts owes to a replica of that mode.
fn part_for(mode: Mode) -> Part
    ensures { result ≡ part_for mode }
{
    match mode {
        Mode::Rw | Mode::Wo => Part::Owed,
        Mode::Err => Part::Apart,
    }
}

/// Whether a replica of that mode has still to acknowledge a call of which it has that part.
fn is_pending(mode: Mode, part: Part) -> bool
    ensures { result ≡ is_pending_at mode part }
{
    match (mode, part) {
        (Mode::Err, _) | (_, Part::Apart | Part::Acked) => false,
        (_, Part::Owed | Part::Taken) => true,
    }
}
