//! A purge: part after part, until nothing is left to go.

ghost use Rattle.std.specs.Prelude.{◌≡◌, ℕ, ◌*◌, ◌<◌, List, [], ◌∷◌, length, IfOk, OnOk, OnErr};
ghost use Rattle.vol_units.specs.declared.size.TheConstants.{PAGE_BYTES};
ghost use Rattle.volume_model.specs.declared.command.Command.{Command};
ghost use Rattle.volume_model.specs.declared.mark.FoldOrDrop.{FoldOrDrop};
ghost use Rattle.volume_model.specs.Modes.{mode_of};
ghost use Rattle.stream_steps.specs.Mine.{OwnCall};
ghost use Rattle.stream_steps.specs.Maint.{HasTurn};
ghost use Rattle.client_worker.specs.Working.{KeepsLines, Stays};
ghost use Rattle.control_worker.specs.Frames.{IsRequest, KeepsText};
ghost use Rattle.control_worker.specs.Purges.{GoesNext, IsFolded, PurgesOn, PurgesWhole, RoundTo};
ghost use Rattle.control_worker.specs.Serving.{GaveUp, GrewByCommand};
ghost use Rattle.control_worker.specs.Whole.{GoesOn};

use crate::carrier::Carrier;
use crate::frames::{ask_head, done_head, fill_fold, offset_of};
use crate::parts::Whole;
use crate::rooms::Rooms;
use client_worker::{Line, next_exchange, put_header};
use frame_wire::{HEADER_LENGTH, encode_header};
use range_turns::TicketNumber;
use std::alloc::{AllocError, Global};
use std::sync::Wait;
use step_answers::{NextPart, WholeOp};
use stream_steps::{AddSteps, Command};
use vol_units::LayerName;
use volume_model::{FoldOrDrop, Refusal, Reply};

/// A page of a layer that is folded, by the purge that has that turn.
#[derive(Clone, Copy, Debug, PartialEq, Eq)]
struct Fold {
    turn: TicketNumber,
    parent: LayerName,
    page: u32,
}

impl<C: AddSteps + Drop, L: Line + Drop> Carrier<C, L> {
    /// Takes out the layers that can go, one after another. Out of memory leaves those that are left.
    pub(crate) fn purge<R: Wait>(
        &mut self,
        rt: &R,
        alloc: Global,
        rooms: &mut Rooms,
    ) -> Result<(), AllocError>
        requires idle { (C.mine self.old.steps).running ≡ [] }
        // Where memory ran out, it may tell that the stream gave up.
        ensures home { OnOk result (C.home self.new.steps ≡ C.home self.old.steps) }
        ensures lines { KeepsLines L.ends self.old self.new }
        ensures ok { OnOk result (GrewByCommand Command.Purge (C.mine self.old.steps) (C.mine self.new.steps)) }
        ensures err { OnErr result (GaveUp (C.mine self.old.steps) (C.mine self.new.steps)) }
    {
        let t = self.steps.enrol_maint(rt, alloc, &Command::Purge)?;
        self.await_turn(rt, t);
        self.take_all(rt, alloc, t, rooms)
    }

    /// Takes layer after layer out, until the purge is answered. Out of memory gives the turn back.
    fn take_all<R: Wait>(
        &mut self,
        rt: &R,
        alloc: Global,
        t: TicketNumber,
        rooms: &mut Rooms,
    ) -> Result<(), AllocError>
        requires turn { (o : OwnCall) × HasTurn t Command.Purge o (C.mine self.old.steps) }
        // Where memory ran out, it may tell that the stream gave up.
        ensures home { OnOk result (C.home self.new.steps ≡ C.home self.old.steps) }
        ensures lines { KeepsLines L.ends self.old self.new }
        ensures ok { OnOk result ((o : OwnCall) → HasTurn t Command.Purge o (C.mine self.old.steps)
            → PurgesWhole o (C.mine self.old.steps) (C.mine self.new.steps)) }
        ensures err { OnErr result (GaveUp (C.mine self.old.steps) (C.mine self.new.steps)) }
    {
        for _ in rt.forever() {
            match self.round(rt, alloc, t, rooms) {
                Ok(true) => return Ok(()),
                Ok(false) => {}
                Err(error) => {
                    self.steps.abandon(rt, t);
                    return Err(error);
                }
            }
        }
        unreachable!()
    }

    /// Takes one layer out, or ends the purge, where that can be: says whether it is answered.
    fn round<R: Wait>(
        &mut self,
        rt: &R,
        alloc: Global,
        t: TicketNumber,
        rooms: &mut Rooms,
    ) -> Result<bool, AllocError>
        requires turn { (o : OwnCall) × HasTurn t Command.Purge o (C.mine self.old.steps) }
        ensures stays { Stays C.home L.ends self.old self.new }
        ensures ok { IfOk result (λ done. (o : OwnCall) → HasTurn t Command.Purge o (C.mine self.old.steps)
            → RoundTo o done (C.mine self.old.steps) (C.mine self.new.steps)) }
        ensures err { OnErr result ((o : OwnCall) → HasTurn t Command.Purge o (C.mine self.old.steps)
            → PurgesOn (o ∷ []) (C.mine self.old.steps) (C.mine self.new.steps)) }
    {
        match self.steps.fold_next(rt, t) {
            NextPart::Part(part) => self.take_out(rt, alloc, t, part, rooms),
            NextPart::Nothing => Ok(self.steps.end_maint(rt, t, Reply::Done).is_ok()),
            NextPart::NoReplica => {
                let refused = Reply::Refused(Refusal::NoReplica);
                Ok(self.steps.end_maint(rt, t, refused).is_ok())
            }
            NextPart::After(_) => Ok(false),
        }
    }

    /// Takes a layer out that goes next: says whether the purge was answered thereby, that there is no replica.
    fn take_out<R: Wait>(
        &mut self,
        rt: &R,
        alloc: Global,
        t: TicketNumber,
        part: FoldOrDrop,
        rooms: &mut Rooms,
    ) -> Result<bool, AllocError>
        requires turn { (o : OwnCall) × HasTurn t Command.Purge o (C.mine self.old.steps) }
        requires next { GoesNext part (C.mine self.old.steps) }
        ensures stays { Stays C.home L.ends self.old self.new }
        ensures ok { IfOk result (λ done. (o : OwnCall) → HasTurn t Command.Purge o (C.mine self.old.steps)
            → RoundTo o done (C.mine self.old.steps) (C.mine self.new.steps)) }
        ensures err { OnErr result ((o : OwnCall) → HasTurn t Command.Purge o (C.mine self.old.steps)
            → PurgesOn (o ∷ []) (C.mine self.old.steps) (C.mine self.new.steps)) }
    {
        self.fold_before(rt, t, &part, rooms);
        let op = WholeOp::Purge(part);
        let Some(ticket) = self.steps.enrol_whole(rt, alloc, t, &op)? else {
            return Ok(false);
        };
        if !self.start(rt, alloc, ticket)? {
            return Ok(true);
        }
        self.carry_whole(rt, &Whole { ticket, op }, rooms);
        Ok(false)
    }

    /// Folds the pages of a layer that goes by a fold, one after another.
    fn fold_before<R: Wait>(
        &mut self,
        rt: &R,
        t: TicketNumber,
        part: &FoldOrDrop,
        rooms: &mut Rooms,
    )
        requires turn { (o : OwnCall) × HasTurn t Command.Purge o (C.mine self.old.steps) }
        ensures stays { Stays C.home L.ends self.old self.new }
        ensures goes { GoesOn (C.mine self.old.steps) (C.mine self.new.steps) }
        // Each page of the volume, as large as it was seen, on each replica.
        ensures folded { (parent child : List ℕ) → part.now ≡ FoldOrDrop.Fold parent child
            → (saw : C) × (C.home saw ≡ C.home self.old.steps)
            × ((page r : ℕ) → page * PAGE_BYTES < length (C.seen saw).log.spot.state.volume.disk
            → r < length self.old.channels → (seen : C) × (C.home seen ≡ C.home self.old.steps)
            × IsFolded (C.wants_fold seen r parent page) (mode_of (C.modes seen) r) parent page (C.seen seen)) }
    {
        let FoldOrDrop::Fold { parent, child } = part else {
            return;
        };
        fill_fold(&mut rooms.request, parent, child);
        let pages = self.steps.page_count(rt);
        self.fold_pages(rt, t, parent, pages, rooms);
    }

    /// Folds so many pages, one after another: the request is there but for its header.
    fn fold_pages<R: Wait>(
        &mut self,
        rt: &R,
        t: TicketNumber,
        parent: &LayerName,
        pages: u32,
        rooms: &mut Rooms,
    )
        requires request { IsRequest rooms.old }
        requires turn { (o : OwnCall) × HasTurn t Command.Purge o (C.mine self.old.steps) }
        ensures stays { Stays C.home L.ends self.old self.new }
        ensures text { KeepsText rooms.old rooms.new }
        ensures goes { GoesOn (C.mine self.old.steps) (C.mine self.new.steps) }
        ensures folded { (page r : ℕ) → page < pages → r < length self.old.channels
            → (seen : C) × (C.home seen ≡ C.home self.old.steps)
            × IsFolded (C.wants_fold seen r parent.now page) (mode_of (C.modes seen) r) parent.now page (C.seen seen) }
    {
        for page in 0..pages {
            let fold = Fold {
                turn: t,
                parent: *parent,
                page,
            };
            self.fold_all(rt, &fold, rooms);
        }
    }

    /// Folds a page on each replica that has a block of it to move, in rising number.
    fn fold_all<R: Wait>(&mut self, rt: &R, fold: &Fold, rooms: &mut Rooms)
        requires request { IsRequest rooms.old }
        requires turn { (o : OwnCall) × HasTurn fold.now.turn Command.Purge o (C.mine self.old.steps) }
        ensures stays { Stays C.home L.ends self.old self.new }
        ensures text { KeepsText rooms.old rooms.new }
        ensures goes { GoesOn (C.mine self.old.steps) (C.mine self.new.steps) }
        // Each replica, when it was its turn.
        ensures folded { (r : ℕ) → r < length self.old.channels
            → (seen : C) × (C.home seen ≡ C.home self.old.steps)
            × IsFolded (C.wants_fold seen r fold.now.parent fold.now.page) (mode_of (C.modes seen) r) fold.now.parent
            fold.now.page (C.seen seen) }
    {
        for r in 0..self.channels.len() {
            self.fold_one(rt, fold, r as u8, rooms);
        }
    }

    /// Folds a page on a replica, if it has a block of it to move: its request is there but for the header.
    fn fold_one<R: Wait>(&mut self, rt: &R, fold: &Fold, replica: u8, rooms: &mut Rooms)
        requires line { replica < length self.old.channels }
        requires request { IsRequest rooms.old }
        requires turn { (o : OwnCall) × HasTurn fold.now.turn Command.Purge o (C.mine self.old.steps) }
        ensures stays { Stays C.home L.ends self.old self.new }
        ensures text { KeepsText rooms.old rooms.new }
        ensures goes { GoesOn (C.mine self.old.steps) (C.mine self.new.steps) }
        ensures folded { IsFolded (C.wants_fold self.new.steps replica fold.now.parent fold.now.page)
            (mode_of (C.modes self.new.steps) replica) fold.now.parent fold.now.page (C.seen self.new.steps) }
    {
        if !self.steps.fold_wanted(rt, replica, &fold.parent, fold.page) {
            return;
        }
        let seq = next_exchange(&mut self.channels, replica);
        let offset = offset_of(fold.page);
        let request = &mut rooms.request;
        let count = (request.len() - HEADER_LENGTH) as u32;
        put_header(request, &ask_head(seq, offset, count));
        if !self.pass(rt, replica, request, &mut rooms.arrivals) {
            return;
        }
        let done = self
            .steps
            .fold_page(rt, fold.turn, replica, &fold.parent, fold.page);
        if done.is_err() {
            return;
        }
        let reply = encode_header(&done_head(seq, offset));
        self.pass(rt, replica, &reply, &mut rooms.arrivals);
    }
}
