//! A book of notes, in which each stream begins a call and ends it later.
ghost use Rattle.std.specs.Prelude.{◌≡◌, ℕ, ◌<◌, ◌^◌, [], ◌∷◌, ◌++◌, length, slice_set, IsSome, IfOk, OnOk, OnErr, Some, None};
ghost use Rattle.desk_trial.specs.Books.{call_at, note_of};

use desk_lock::Kept;
use std::alloc::{AllocError, Global};

/// A call that has ended.
#[derive(Drop)]
pub struct Note {
    pub stream: u64,
    pub value: u64,
}

/// The calls that have ended, in order, and of each stream the one that it has begun.
#[derive(Drop)]
pub struct Book {
    pub notes: Vec<Note>,
    pub begun: Vec<Option<u64>>,
}

impl Kept for Book {
    ghost use Rattle.desk_trial.specs.Books.{book_account};
    ghost use Rattle.desk_trial.specs.declared.book.Note.{Note};
    ghost use Rattle.std.specs.Prelude.{ℕ};

    ghost Entry = { Note };

    ghost OpenCall = { ℕ };

    ghost Origin = { ℕ };

    ghost account = { book_account };

    fn length(&self) -> u64 {
        self.notes.len() as u64
    }
}

impl Book {
    /// A book of so many streams, without a note.
    pub fn with_streams(alloc: Global, streams: u64) -> Result<Book, AllocError>
        ensures notes { IfOk result (λ b. b.notes.items ≡ []) }
        ensures streams { IfOk result (λ b. length b.begun.items ≡ streams) }
        ensures idle { IfOk result (λ b. (n : ℕ) → call_at b.begun.items n ≡ None) }
    {
        let mut begun = Vec::new(alloc);
        for _ in 0..streams {
            begun.push(None)?;
        }
        Ok(Book {
            notes: Vec::new(alloc),
            begun,
        })
    }

    /// Begins a call of a stream.
    pub fn begin(&mut self, stream: u64, value: u64)
        requires { stream < length self.old.begun.items }
        ensures notes { self.new.notes ≡ self.old.notes }
        ensures begun { self.new.begun.items ≡ slice_set self.old.begun.items stream (Some value) }
    {
        self.begun[stream as usize] = Some(value);
    }

    /// Ends the call that a stream has begun: it is noted. After `Err` nothing is changed.
    pub fn finish(&mut self, stream: u64) -> Result<(), AllocError>
        requires inside { stream < length self.old.begun.items }
        requires begun { (x : ℕ) × (call_at self.old.begun.items stream ≡ Some x) }
        ensures ok { OnOk result ((x : ℕ) → call_at self.old.begun.items stream ≡ Some x
            → (self.new.notes.items ≡ self.old.notes.items ++ note_of stream x ∷ [])
            × (self.new.begun.items ≡ slice_set self.old.begun.items stream None)) }
        ensures err { OnErr result ((self.new.notes.items ≡ self.old.notes.items)
            × (self.new.begun.items ≡ self.old.begun.items)) }
    {
        if let Some(value) = self.begun[stream as usize] {
            self.notes.push(Note { stream, value })?;
            self.begun[stream as usize] = None;
        }
        Ok(())
    }
}
