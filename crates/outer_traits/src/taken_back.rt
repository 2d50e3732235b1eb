ghost use Rattle.std.specs.Prelude.{◌≡◌, ◌∷◌, [], None, Some, MatchOption};
ghost use Rattle.outer_traits.specs.Lines.{told_between};
ghost use Rattle.outer_traits.specs.TakenBack.{records_in};

use crate::ends::Ends;
use std::alloc::{AllocError, Global};
use std::marker::Model;
use std::mem;

/// What a line told when it was taken back.
#[derive(Debug, Drop)]
pub struct LineRecord<T: Drop> {
    pub ends: Ends,
    pub told: T,
}

#[derive(Debug, Drop)]
enum Pile<T: Drop> {
    Empty,
    On(LineRecord<T>, Box<Pile<T>>),
}

/// The memory of one record more. A line has it from its making on, so that taking it back takes none.
#[derive(Debug, Drop)]
pub struct BlankRecord<T: Drop> {
    blank: Box<Pile<T>>,
}

impl<T: Drop> BlankRecord<T> {
    /// Memory for one record.
    pub fn new(alloc: Global) -> Result<Self, AllocError> {
        let blank = Box::new(alloc, Pile::Empty)?;
        Ok(BlankRecord { blank })
    }
}

/// What lines told that were taken back, the last first.
#[derive(Debug, Drop)]
pub struct TakenBack<T: Drop> {
    top: Pile<T>,
}

impl<T: Drop> Model for TakenBack<T> {
    ghost use Rattle.std.specs.Prelude.{List};
    ghost use Rattle.outer_traits.specs.declared.taken_back.LineRecord.{LineRecord};
    ghost use Rattle.outer_traits.specs.TakenBack.{records_in};

    ghost Value = { List (LineRecord T) };

    ghost view = { λ t. records_in t.top };
}

impl<T: Drop> TakenBack<T> {
    /// No line was taken back yet.
    pub fn new() -> Self
        ensures { result ≡ [] }
    {
        TakenBack { top: Pile::Empty }
    }

    /// Notes what a line told, in the memory that it brings for that.
    pub fn push(&mut self, blank: BlankRecord<T>, ends: Ends, told: T)
        ensures { self.new ≡ (record { ends = ends; told = told }) ∷ self.old }
    {
        let mut below = blank.blank;
        *below = mem::replace(&mut self.top, Pile::Empty);
        self.top = Pile::On(LineRecord { ends, told }, below);
    }

    /// What the line told that is between these ends, and was taken back last.
    pub fn told(&self, ends: Ends) -> Option<&T>
        ensures { MatchOption result (told_between self.now ends.worker ends.replica ≡ None)
            (λ told. told_between self.now ends.worker ends.replica ≡ Some told.now) }
    {
        told_in(&self.top, ends)
    }
}

/// What the first of the records tells that is between these ends.
fn told_in<T: Drop>(pile: &Pile<T>, ends: Ends) -> Option<&T>
    ensures { MatchOption result (told_between (records_in pile.now) ends.worker ends.replica ≡ None)
        (λ told. told_between (records_in pile.now) ends.worker ends.replica ≡ Some told.now) }
{
    match pile {
        Pile::Empty => None,
        Pile::On(record, below) => {
            if record.ends.worker == ends.worker && record.ends.replica == ends.replica {
                Some(&record.told)
            } else {
                told_in(below, ends)
            }
        }
    }
}
