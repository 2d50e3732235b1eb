ghost use Rattle.std.specs.Prelude.{◌≡◌, ◌⊎◌, ℕ, ◌<◌, List, None, true, false, IfOk, OnErr, IfSome, MatchOption};
ghost use Rattle.step_answers.specs.declared.whole_op.WholeOp.{WholeOp};
ghost use Rattle.stream_steps.specs.Mine.{OwnCall};
ghost use Rattle.stream_steps.specs.Does.{Stands, StandsStill, StartsOrWaits};
ghost use Rattle.stream_steps.specs.Maint.{HasWhole, ForBarrier};
ghost use Rattle.stream_steps.specs.Add.{AdmitsBarrier, BeginsRebuild, ComesIn, EndsAborted, FallsAt, ForAdd, GoesOut, HasAdd, IsCopyFault, IsNoWait, KeepsPages, KeepsRebuild, LeavesAdd, LeavesOpen, Promotes, PutsIn, TakesNext, TakesOut, WaitsBarrier};

use crate::command::CommandSteps;
use range_turns::TicketNumber;
use sparse_image::Page;
use std::alloc::{AllocError, Global};
use std::sync::Wait;
use vol_units::{LayerName, PageRef};

/// What a rebuild copies next.
#[derive(Clone, Copy, Debug, PartialEq, Eq)]
pub enum NextPage {
    /// This page.
    Page(PageRef),
    /// Nothing: every page is listed as copied.
    All,
    /// Nothing: the rebuild was aborted, and its mark stands at that place of the journal.
    Ended(u64),
}

/// What went out of the source of a page.
#[derive(Clone, Copy, Debug, PartialEq, Eq)]
pub enum PageOut {
    /// Nothing: the layer has no block there.
    Empty,
    /// The blocks that the layer has there.
    Blocks,
    /// Nothing: the rebuild was aborted, and its mark stands at that place.
    Ended(u64),
}

/// How a page came into the replica that is rebuilt.
#[derive(Clone, Copy, Debug, PartialEq, Eq)]
pub enum PageIn {
    /// It has the blocks, and the page is listed as copied.
    Listed,
    /// It did not: the rebuild was aborted, and its mark stands at that place.
    Ended(u64),
}

/// How a rebuild began: from which replica, and under which name the barrier's snapshot is taken.
#[derive(Clone, Copy, Debug, PartialEq, Eq)]
pub struct Added {
    pub source: u8,
    pub name: LayerName,
}

/// What asking to start the barrier of an add comes to.
#[derive(Clone, Copy, Debug, PartialEq, Eq)]
pub enum AdmitBarrier {
    /// It has started, and its rebuild has begun so.
    Go(Added),
    /// It has to wait for that ticket.
    After(TicketNumber),
    /// It may not begin: the add's rebuild was begun already, or there is no such replica.
    Never,
    /// The add is refused, and answered so.
    Refused,
}

/// The core's steps of a rebuild, as the worker of the stream takes them whose add has the maintenance turn, each whole by
/// itself. The barrier is an operation on the whole volume, and its steps are those of `CommandSteps`.
pub trait AddSteps: CommandSteps {
    ghost use Rattle.std.specs.Prelude.{ℕ};
    ghost use Rattle.sparse_image.specs.Image.{Table};
    ghost use Rattle.vol_units.specs.declared.page_ref.PageRef.{PageRef};

    // How many pages of frozen layers are not listed as copied, as it was seen last; none where no rebuild is open.
    ghost left: { Self → ℕ };

    // The page is of a frozen layer and not listed, or the rebuild has ended.
    ghost awaits: { Self → PageRef → Type 0 };

    // These are the blocks that the source itself has of the page, or the rebuild has ended.
    ghost is_page: { Self → PageRef → Table → Type 0 };

    // The rebuild's aborted mark stands at that place of the journal.
    ghost is_aborted: { Self → ℕ → Type 0 };

    /// Starts the barrier, where no earlier call is in its way, and with it the rebuild.
    fn admit_barrier<R: Wait>(
        &mut self,
        rt: &R,
        alloc: Global,
        t: TicketNumber,
    ) -> Result<AdmitBarrier, AllocError>
        requires ready { Self.ready self.old }
        requires open { (r : ℕ) × (turn : List OwnCall) × (o : OwnCall)
            × HasWhole t (WholeOp.Barrier r) turn o (Self.mine self.old) × (o.started ≡ false) }
        ensures stands { Stands Self.ready Self.home self.old self.new }
        ensures ok { IfOk result (λ a. StartsOrWaits (Self.mine self.old) (ForBarrier t (Self.mine self.old)
            (λ r turn o. AdmitsBarrier r turn o a (Self.mine self.old) (Self.mine self.new)))
            (IsNoWait a) (WaitsBarrier t a (Self.seen self.new))) }
        ensures rebuild { BeginsRebuild t result (Self.mine self.old) (Self.begun self.new false)
            (Self.unbegun self.old) (Self.unbegun self.new) }
        ensures err { OnErr result (Self.mine self.new ≡ Self.mine self.old) };

    // ---- pages

    /// The first page that is not listed.
    fn copy_next<R: Wait>(&mut self, rt: &R, t: TicketNumber) -> NextPage
        requires ready { Self.ready self.old }
        requires turn { (r : ℕ) × (o : OwnCall) × HasAdd t r o (Self.mine self.old) }
        ensures stands { StandsStill Self.ready Self.home Self.mine self.old self.new }
        ensures kept { KeepsRebuild is_aborted is_page Self.begun left self.old self.new }
        ensures takes { TakesNext result (awaits self.new) (is_aborted self.new) (left self.old) (left self.new) };

    /// Copies what the source itself has of the page into a page that is lent, which stays as it is where that is
    /// nothing. It takes no memory.
    fn copy_out<R: Wait>(
        &mut self,
        rt: &R,
        t: TicketNumber,
        page: &PageRef,
        into: &mut Page,
    ) -> PageOut
        requires ready { Self.ready self.old }
        requires turn { (r : ℕ) × (o : OwnCall) × HasAdd t r o (Self.mine self.old) }
        requires page { GoesOut page.now into.old (awaits self.old) }
        ensures stands { StandsStill Self.ready Self.home Self.mine self.old self.new }
        ensures kept { KeepsPages is_aborted is_page Self.begun left awaits self.old self.new }
        ensures takes { TakesOut result page.now into.new (is_page self.new) (is_aborted self.new)
            (left self.old) (left self.new) };

    /// Puts a page, which went out of the source, into the replica that is rebuilt, whose own comes back, and lists it. It
    /// takes no memory.
    fn copy_in<R: Wait>(
        &mut self,
        rt: &R,
        t: TicketNumber,
        page: &PageRef,
        with: &mut Page,
    ) -> PageIn
        requires ready { Self.ready self.old }
        requires turn { (r : ℕ) × (o : OwnCall) × HasAdd t r o (Self.mine self.old) }
        requires page { ComesIn page.now with.old (awaits self.old) (is_page self.old) }
        ensures stands { StandsStill Self.ready Self.home Self.mine self.old self.new }
        ensures kept { KeepsRebuild is_aborted is_page Self.begun left self.old self.new }
        ensures puts { PutsIn result (is_aborted self.new) (left self.old) (left self.new) };

    /// Where the rebuild was aborted, its mark's place.
    fn aborted<R: Wait>(&mut self, rt: &R, t: TicketNumber) -> Option<u64>
        requires ready { Self.ready self.old }
        requires turn { (r : ℕ) × (o : OwnCall) × HasAdd t r o (Self.mine self.old) }
        ensures stands { StandsStill Self.ready Self.home Self.mine self.old self.new }
        ensures kept { KeepsPages is_aborted is_page Self.begun left awaits self.old self.new }
        ensures not { result ≡ None → (place : ℕ) → ¬ is_aborted self.new place }
        ensures is { MatchOption result (left self.new ≡ left self.old) (is_aborted self.new) };

    /// The stream's line to the source or to the replica that is rebuilt has failed, and so that replica: thereby the
    /// rebuild is aborted, unless it was before, and its mark's place is told.
    fn copy_fault<R: Wait>(&mut self, rt: &R, t: TicketNumber, replica: u8, count: u64) -> u64
        requires ready { Self.ready self.old }
        requires turn { (r : ℕ) × (o : OwnCall) × HasAdd t r o (Self.mine self.old) }
        requires fault { IsCopyFault replica count (Self.begun self.old true) (Self.mine self.old) }
        ensures stands { Stands Self.ready Self.home self.old self.new }
        ensures kept { KeepsPages is_aborted is_page Self.begun left awaits self.old self.new }
        ensures fell { FallsAt replica count result (is_aborted self.new) (Self.mine self.old) (Self.mine self.new) };

    // ---- its end

    /// Promotes the replica that is rebuilt, and answers the add that it is done. None: its rebuild was aborted, or a page
    /// is not listed.
    fn promote<R: Wait>(&mut self, rt: &R, t: TicketNumber) -> Option<u64>
        requires ready { Self.ready self.old }
        requires turn { (r : ℕ) × (o : OwnCall) × HasAdd t r o (Self.mine self.old) }
        ensures stands { Stands Self.ready Self.home self.old self.new }
        ensures done { IfSome result (λ place. ForAdd t (Self.mine self.old)
            (λ r o. Promotes r o (Self.mine self.old) (Self.mine self.new))) }
        // A page is left, or the rebuild was aborted.
        ensures why { result ≡ None → (source r : ℕ) → Self.begun self.old true source r
            → (0 < left self.new) ⊎ ((place : ℕ) × is_aborted self.new place) }
        ensures none { result ≡ None → LeavesOpen (Self.mine self.old) (Self.mine self.new)
            (KeepsRebuild is_aborted is_page Self.begun left self.old self.new) };

    /// Answers the add that its rebuild was aborted, whose mark stands at that place. None: it was not.
    fn end_aborted<R: Wait>(&mut self, rt: &R, t: TicketNumber, place: u64) -> Option<u64>
        requires ready { Self.ready self.old }
        requires turn { (r : ℕ) × (o : OwnCall) × HasAdd t r o (Self.mine self.old) }
        ensures stands { Stands Self.ready Self.home self.old self.new }
        ensures done { IfSome result (λ at. ForAdd t (Self.mine self.old)
            (λ r o. EndsAborted r place o (Self.mine self.old) (Self.mine self.new))) }
        ensures why { result ≡ None → ¬ is_aborted self.new place }
        ensures none { result ≡ None → LeavesOpen (Self.mine self.old) (Self.mine self.new)
            (KeepsRebuild is_aborted is_page Self.begun left self.old self.new) };

    /// Gives the turn of the add back, once memory ran out. Where its rebuild is open it is aborted, and where it was
    /// aborted, then or before, the add is answered so. It takes no memory. What is kept at home may tell then that the
    /// stream gave a command up.
    fn abandon_add<R: Wait>(&mut self, rt: &R, t: TicketNumber)
        requires ready { Self.ready self.old }
        requires turn { (r : ℕ) × (o : OwnCall) × HasAdd t r o (Self.mine self.old) }
        ensures ready { Self.ready self.new }
        ensures left { ForAdd t (Self.mine self.old)
            (λ r o. LeavesAdd o (Self.mine self.old) (Self.mine self.new)) };
}
