ghost use Rattle.std.specs.Prelude.{◌≡◌, ◌<◌, ◌≤◌, ◌+◌, ◌^◌, [], Some, None, length, map, take, string_bytes};
ghost use Rattle.std.specs.Prelude.{IfOk, IfSome, OnOk, IsErrOf};
ghost use Rattle.std.specs.Option.{option_map};
ghost use Rattle.outer_traits.specs.Causes.{HasOuterCause};
ghost use Rattle.outer_memory.specs.Plan.{FollowsPlan};
ghost use Rattle.shelf_memory.specs.Kept.{files_of};
ghost use Rattle.shelf_traits.specs.Failing.{FailsAt, FailsNowhere};
ghost use Rattle.shelf_traits.specs.Files.{AllStay, OthersStay, Becomes, Lists, written, resized, from_place};

use crate::no_fault_shelves::NoFaultShelves;
use outer_memory::FaultPlan;
use shelf_traits::{Outer, OuterError, Shelves};
use std::alloc::Global;
use std::marker::Model;

/// The file that a call was to change which failed.
#[derive(Debug, Drop)]
pub struct FailedAt {
    shelf: u8,
    file: String,
}

impl Model for FailedAt {
    ghost use Rattle.std.specs.Prelude.{string_bytes};
    ghost use Rattle.shelf_traits.specs.Failing.{FileOn};

    ghost Value = { FileOn };

    ghost view = { λ f. record { shelf = f.shelf; file = string_bytes f.file } };
}

/// Shelves that keep what they are given, and of which calls fail where a plan says. A call that fails does nothing.
#[derive(Debug, Drop)]
pub struct MemoryShelves {
    /// What they hold.
    pub shelves: NoFaultShelves,
    /// Which calls fail.
    pub plan: FaultPlan,
    /// How many calls have failed.
    pub faults: u64,
    /// Where the last failure was: none where that call changes no file, or where there was no memory to note it.
    pub failed_at: Option<FailedAt>,
    alloc: Global,
}

impl MemoryShelves {
    pub fn new(alloc: Global, plan: FaultPlan) -> Self
        ensures shelves { result.shelves ≡ [] }
        ensures plan { result.plan ≡ plan }
        ensures faults { result.faults ≡ 0 }
        ensures failed_at { result.failed_at ≡ None }
    {
        MemoryShelves {
            shelves: NoFaultShelves::new(alloc),
            plan,
            faults: 0,
            failed_at: None,
            alloc,
        }
    }

    /// Counts one call more, which changes no file. It fails where the plan says so.
    fn pass(&mut self) -> Outer<()>
        ensures same { self.new.shelves ≡ self.old.shelves }
        ensures cause { HasOuterCause self.old.faults self.new.faults result }
        ensures fault { FailsNowhere self.old.failed_at self.new.failed_at result }
        ensures plan { FollowsPlan self.old.plan self.new.plan (IsErrOf result OuterError.Failed) }
    {
        if self.plan.next_fails() {
            self.faults = self.faults.saturating_add(1);
            self.failed_at = None;
            return Err(OuterError::Failed);
        }
        Ok(())
    }

    /// The same of a call that is to change this file.
    fn pass_to(&mut self, shelf: u8, file: &str) -> Outer<()>
        ensures same { self.new.shelves ≡ self.old.shelves }
        ensures cause { HasOuterCause self.old.faults self.new.faults result }
        ensures fault { FailsAt shelf file.now self.old.failed_at self.new.failed_at result }
        ensures plan { FollowsPlan self.old.plan self.new.plan (IsErrOf result OuterError.Failed) }
    {
        if self.plan.next_fails() {
            self.faults = self.faults.saturating_add(1);
            self.failed_at = noted(self.alloc, shelf, file);
            return Err(OuterError::Failed);
        }
        Ok(())
    }
}

/// Where a call failed, as far as there is memory to note it.
fn noted(alloc: Global, shelf: u8, file: &str) -> Option<FailedAt>
    ensures { IfSome result (λ at. at ≡ record { shelf = shelf; file = file.now }) }
{
    match String::from_str(alloc, file) {
        Ok(file) => Some(FailedAt { shelf, file }),
        Err(_) => None,
    }
}

impl Shelves for MemoryShelves {
    ghost holds = { λ s. Some (files_of s.shelves) };

    ghost faults = { λ s. s.faults };

    ghost failed_at = { λ s. s.failed_at };

    // Each call fails where its number is in the plan, and is counted.
    fn files(&mut self, shelf: u8) -> Outer<Vec<String>>
        ensures same { AllStay (files_of self.old.shelves) (files_of self.new.shelves) }
        ensures names { IfOk result (λ names.
            Lists shelf (map string_bytes names.items) (files_of self.old.shelves)) }
        ensures cause { HasOuterCause self.old.faults self.new.faults result }
        ensures fault { FailsNowhere self.old.failed_at self.new.failed_at result }
        ensures plan { FollowsPlan self.old.plan self.new.plan (IsErrOf result OuterError.Failed) }
    {
        self.pass()?;
        self.shelves.files(shelf)
    }

    fn len(&mut self, shelf: u8, file: &str) -> Outer<Option<u64>>
        ensures same { AllStay (files_of self.old.shelves) (files_of self.new.shelves) }
        ensures len { IfOk result (λ n. n ≡ option_map length (files_of self.old.shelves shelf file.now)) }
        ensures cause { HasOuterCause self.old.faults self.new.faults result }
        ensures fault { FailsNowhere self.old.failed_at self.new.failed_at result }
        ensures plan { FollowsPlan self.old.plan self.new.plan (IsErrOf result OuterError.Failed) }
    {
        self.pass()?;
        self.shelves.len(shelf, file)
    }

    fn read_at(&mut self, shelf: u8, file: &str, at: u64, into: &mut [u8]) -> Outer<usize>
        ensures bound { IfOk result (λ n. n ≤ length into.new) }
        ensures same { AllStay (files_of self.old.shelves) (files_of self.new.shelves) }
        ensures bytes { IfOk result (λ n. take n into.new
            ≡ take (length into.old) (from_place (files_of self.old.shelves shelf file.now) at)) }
        ensures cause { HasOuterCause self.old.faults self.new.faults result }
        ensures fault { FailsNowhere self.old.failed_at self.new.failed_at result }
        ensures plan { FollowsPlan self.old.plan self.new.plan (IsErrOf result OuterError.Failed) }
    {
        self.pass()?;
        self.shelves.read_at(shelf, file, at, into)
    }

    fn write_at(&mut self, shelf: u8, file: &str, at: u64, bytes: &[u8]) -> Outer<()>
        requires { at + length bytes.now < 2 ^ 63 }
        ensures ok { OnOk result (Becomes shelf file.now (Some (written (files_of self.old.shelves shelf file.now) at bytes.now))
            (files_of self.old.shelves) (files_of self.new.shelves)) }
        ensures others { OthersStay shelf file.now (files_of self.old.shelves) (files_of self.new.shelves) }
        ensures cause { HasOuterCause self.old.faults self.new.faults result }
        ensures fault { FailsAt shelf file.now self.old.failed_at self.new.failed_at result }
        ensures plan { FollowsPlan self.old.plan self.new.plan (IsErrOf result OuterError.Failed) }
    {
        self.pass_to(shelf, file)?;
        self.shelves.write_at(shelf, file, at, bytes)
    }

    fn set_len(&mut self, shelf: u8, file: &str, len: u64) -> Outer<()>
        requires { len < 2 ^ 63 }
        ensures ok { OnOk result (Becomes shelf file.now (Some (resized (files_of self.old.shelves shelf file.now) len))
            (files_of self.old.shelves) (files_of self.new.shelves)) }
        ensures others { OthersStay shelf file.now (files_of self.old.shelves) (files_of self.new.shelves) }
        ensures cause { HasOuterCause self.old.faults self.new.faults result }
        ensures fault { FailsAt shelf file.now self.old.failed_at self.new.failed_at result }
        ensures plan { FollowsPlan self.old.plan self.new.plan (IsErrOf result OuterError.Failed) }
    {
        self.pass_to(shelf, file)?;
        self.shelves.set_len(shelf, file, len)
    }

    fn remove(&mut self, shelf: u8, file: &str) -> Outer<()>
        ensures ok { OnOk result (Becomes shelf file.now (None)
            (files_of self.old.shelves) (files_of self.new.shelves)) }
        ensures others { OthersStay shelf file.now (files_of self.old.shelves) (files_of self.new.shelves) }
        ensures cause { HasOuterCause self.old.faults self.new.faults result }
        ensures fault { FailsAt shelf file.now self.old.failed_at self.new.failed_at result }
        ensures plan { FollowsPlan self.old.plan self.new.plan (IsErrOf result OuterError.Failed) }
    {
        self.pass_to(shelf, file)?;
        self.shelves.remove(shelf, file)
    }

    fn sync(&mut self, shelf: u8) -> Outer<()>
        ensures same { AllStay (files_of self.old.shelves) (files_of self.new.shelves) }
        ensures cause { HasOuterCause self.old.faults self.new.faults result }
        ensures fault { FailsNowhere self.old.failed_at self.new.failed_at result }
        ensures plan { FollowsPlan self.old.plan self.new.plan (IsErrOf result OuterError.Failed) }
    {
        self.pass()?;
        self.shelves.sync(shelf)
    }
}
