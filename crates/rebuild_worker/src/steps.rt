ghost use Rattle.std.specs.Prelude.{◌≡◌, ◌≤◌, ℕ, None, Some, true, IfOk, MatchOption, vec_capacity};
ghost use Rattle.frame_wire.specs.Spelling.{IsFrame};
ghost use Rattle.rebuild_worker.specs.Copying.{AreQuiet, CarriesTo, KeepsCopying, KeepsHand, ReadsTo, PutsTo, TakesTo};

use std::alloc::{AllocError, Global};
use std::sync::Wait;
use vol_units::PageRef;

/// What is to be copied next.
#[derive(Clone, Copy, Debug, PartialEq, Eq)]
pub enum CopyNext {
    /// This page, which is in hand now.
    Page(PageRef),
    /// Nothing: every page is listed as copied.
    All,
    /// Nothing: the rebuild was aborted, and its mark stands at that place of the journal.
    Ended(u64),
}

/// What a page of the source is.
#[derive(Clone, Copy, Debug, PartialEq, Eq)]
pub enum CopyOut {
    /// The layer has no block there.
    Empty,
    /// Its blocks are kept, and the text says them.
    Text,
    /// The rebuild was aborted, and its mark stands at that place.
    Ended(u64),
}

/// How a page was put onto the replica that is rebuilt.
#[derive(Clone, Copy, Debug, PartialEq, Eq)]
pub enum CopyPut {
    /// It has the blocks, and the page is listed as copied.
    Listed,
    /// The rebuild was aborted, and its mark stands at that place.
    Ended(u64),
}

/// To which replica a frame goes.
#[derive(Clone, Copy, Debug, PartialEq, Eq)]
pub enum CopySide {
    /// The one that is copied from.
    Source,
    /// The one that is rebuilt.
    Target,
}

/// How a frame was carried.
#[derive(Clone, Copy, Debug, PartialEq, Eq)]
pub enum Carried {
    /// It came through.
    Whole,
    /// The line failed, and so the replica; thereby the rebuild was aborted, and its mark stands at that place.
    Ended(u64),
}

/// The core's steps of a rebuild past its barrier, and its two lines. What others do between two of them is not said.
pub trait CopySteps {
    ghost use Rattle.std.specs.Prelude.{ℕ, List};
    ghost use Rattle.vol_units.specs.declared.page_ref.PageRef.{PageRef};
    ghost use Rattle.rebuild_worker.specs.Copying.{Copying};

    // How far the copying is.
    ghost copying: { Self → Copying };

    // The rebuild's aborted mark stands at that place of the journal. It stands for good.
    ghost is_aborted: { Self → ℕ → Type 0 };

    // This is the text of a page of a frozen layer on the source, and no byte where it has no block there.
    ghost is_text: { Self → PageRef → List ℕ → Type 0 };

    // What else is true of the steps for good, once it is.
    ghost Fact: { Type 0 };

    ghost stays: { Self → Fact → Type 0 };

    // What no step changes.
    ghost Home: { Type 0 };

    ghost home: { Self → Home };

    // That the next step can be taken.
    ghost ready: { Self → Type 0 };

    /// Takes a page in hand that is not listed.
    fn next<R: Wait>(&mut self, rt: &R) -> CopyNext
        requires ready { ready self.old }
        requires idle { (copying self.old).hand ≡ None }
        ensures keeps { KeepsCopying ready home is_aborted is_text stays copying self.old self.new }
        ensures quiet { AreQuiet (copying self.old) (copying self.new) }
        ensures takes { TakesTo result (is_aborted self.new) (copying self.old) (copying self.new) };

    /// Carries a frame to one of the two replicas. First the number of the exchange is put into it: a reply has that of the
    /// request before it on its line. Where the line fails, the core is told.
    fn carry<R: Wait>(
        &mut self,
        rt: &R,
        alloc: Global,
        side: CopySide,
        frame: &mut [u8],
    ) -> Result<Carried, AllocError>
        requires ready { ready self.old }
        requires frame { IsFrame frame.old }
        ensures keeps { KeepsCopying ready home is_aborted is_text stays copying self.old self.new }
        ensures same { KeepsHand (copying self.old) (copying self.new) }
        ensures ok { IfOk result (λ c. CarriesTo side c (is_aborted self.new) frame.old frame.new
            (copying self.old) (copying self.new)) };

    /// Reads the page in hand from the source, before it is asked for it: appends its text, and keeps its blocks to be put.
    /// It appends nothing where the page has none.
    fn out<R: Wait>(
        &mut self,
        rt: &R,
        alloc: Global,
        page: &PageRef,
        text: &mut Vec<u8>,
    ) -> Result<CopyOut, AllocError>
        requires ready { ready self.old }
        requires hand { (copying self.old).hand ≡ Some page.now }
        ensures keeps { KeepsCopying ready home is_aborted is_text stays copying self.old self.new }
        ensures quiet { AreQuiet (copying self.old) (copying self.new) }
        ensures room { vec_capacity text.old ≤ vec_capacity text.new }
        ensures ok { IfOk result (λ o. ReadsTo o page.now (is_aborted self.new) (is_text self.new)
            text.old.items text.new.items (copying self.old) (copying self.new)) };

    /// Puts the page in hand, which was read, onto the replica that is rebuilt, and lists it.
    fn put<R: Wait>(&mut self, rt: &R, alloc: Global, page: &PageRef) -> Result<CopyPut, AllocError>
        requires ready { ready self.old }
        requires hand { (copying self.old).hand ≡ Some page.now }
        requires read { (copying self.old).read ≡ true }
        ensures keeps { KeepsCopying ready home is_aborted is_text stays copying self.old self.new }
        ensures quiet { AreQuiet (copying self.old) (copying self.new) }
        ensures ok { IfOk result (λ p. PutsTo p (is_aborted self.new) (copying self.old) (copying self.new)) };

    /// Where the rebuild was aborted, its mark's place.
    fn ended<R: Wait>(&mut self, rt: &R) -> Option<u64>
        requires ready { ready self.old }
        ensures keeps { KeepsCopying ready home is_aborted is_text stays copying self.old self.new }
        ensures quiet { AreQuiet (copying self.old) (copying self.new) }
        ensures same { KeepsHand (copying self.old) (copying self.new) }
        ensures not { result ≡ None → (place : ℕ) → ¬ is_aborted self.new place }
        ensures is { MatchOption result ((copying self.new).left ≡ (copying self.old).left) (is_aborted self.new) };
}
