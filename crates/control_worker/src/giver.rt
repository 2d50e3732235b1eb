//! The pages of a backup come over the stream's lines.

ghost use Rattle.std.specs.Prelude.{◌≡◌, ℕ, ◌*◌, ◌+◌, ◌<◌, List, [], length, map, true, IfOk, IfErr, OnOk, IsSome, IfSome, option_map};
ghost use Rattle.vol_units.specs.Bytes.{bytes_at};
ghost use Rattle.vol_units.specs.declared.size.TheConstants.{PAGE_BYTES};
ghost use Rattle.volume_model.specs.Modes.{HasNoSource};
ghost use Rattle.backup_make.specs.Giving.{Covers, finds_none};
ghost use Rattle.stream_steps.specs.Mine.{OwnCall, with_running};
ghost use Rattle.stream_steps.specs.Backup.{HasBackup, KeepsCopies};
ghost use Rattle.stream_steps.specs.Does.{StandsStill};
ghost use Rattle.frame_wire.specs.Spelling.{header_length, IsFrame};
ghost use Rattle.client_worker.specs.Working.{IsServing};
ghost use Rattle.rebuild_worker.specs.Copying.{CarriesOn};
ghost use Rattle.control_worker.specs.Frames.{page_in};
ghost use Rattle.control_worker.specs.Giver.{GavePage, GivesOn, IsPageOf, TellsPage, line_at, same_base};

use crate::frames::{fill_page_request, make_long, offset_of, page_in, put_page_head};
use crate::line::carry_on;
use backup_make::{GiveError, PageGiver, Pages};
use client_worker::{Channel, Line};
use frame_wire::HEADER_LENGTH;
use range_turns::TicketNumber;
use std::alloc::{AllocError, Global};
use std::sync::Wait;
use step_answers::NotThis;
use stream_steps::BackupSteps;
use vol_units::{LayerName, PAGE_BYTES};

/// How long a reply with a page is.
const PAGE_REPLY: usize = HEADER_LENGTH + PAGE_BYTES as usize;

/// What the pages of a backup are carried in. It is made for the first page, and never grows.
#[derive(Drop)]
pub(crate) struct PageRooms {
    /// The request for a page.
    request: Vec<u8>,
    /// The reply with a page, which a replica writes behind the place for the header.
    reply: Vec<u8>,
    /// Where frames arrive.
    arrivals: Vec<u8>,
}

impl PageRooms {
    /// With no memory yet.
    pub(crate) fn new(alloc: Global) -> PageRooms {
        PageRooms {
            request: Vec::new(alloc),
            reply: Vec::new(alloc),
            arrivals: Vec::new(alloc),
        }
    }
}

/// The steps of the stream's backup, with the stream's lines.
#[derive(Drop)]
pub(crate) struct Giver<'a, C, L: Drop> {
    pub(crate) steps: &'a mut C,
    pub(crate) channels: &'a mut [Channel<L>],
    pub(crate) turn: TicketNumber,
    pub(crate) snapshot: LayerName,
    /// The snapshot of the base, where it can be used.
    pub(crate) base: Option<LayerName>,
    pub(crate) rooms: &'a mut PageRooms,
}

impl<'a, C: BackupSteps, L: Line + Drop> PageGiver for Giver<'a, C, L> {
    ghost use Rattle.std.specs.Prelude.{◌≡◌, ℕ, List, [], Option, length, map};
    ghost use Rattle.outer_traits.specs.declared.ends.Ends.{Ends};
    ghost use Rattle.volume_model.specs.Modes.{HasNoSource};
    ghost use Rattle.backup_make.specs.Giving.{Copies};
    ghost use Rattle.stream_steps.specs.Mine.{Mine, with_running};
    ghost use Rattle.client_worker.specs.Working.{IsServing};
    ghost use Rattle.control_worker.specs.Frames.{page_in};
    ghost use Rattle.control_worker.specs.Giver.{CanGive, KnownOf, Known, copies_of};

    // Of these two names alone.
    ghost copies = { λ s. copies_of (C.copies s.steps.now) s.snapshot s.base };

    ghost asked = { λ s. s.snapshot };

    ghost given = { λ s. page_in s.rooms.now.reply.items };

    ghost has_none = { λ s. HasNoSource (C.modes s.steps.now) };

    // What the stream's worker knew once, with the copies that it knew.
    ghost Fact = { Known };

    ghost lasts = { λ s known. KnownOf known (C.mine s.steps.now) (C.copies s.steps.now) };

    ghost Home = { C.Home × ℕ × ℕ × ℕ × List Ends × ℕ × List ℕ × Option (List ℕ) };

    ghost home = { λ s. (
      C.home s.steps.now,
      s.steps.ghost_name,
      s.channels.ghost_name,
      length s.channels.now,
      map (λ c. L.ends c.line) s.channels.now,
      s.turn,
      s.snapshot,
      s.base,
    ) };

    ghost ready = { λ s. IsServing C.ready (λ c. with_running (C.mine c) []) L.count L.carried
        (record { steps = s.steps.now; channels = s.channels.now })
        × CanGive s.turn s.snapshot s.base (C.mine s.steps.now) (C.copies s.steps.now) };

    fn pages<R: Wait>(
        &mut self,
        rt: &R,
        alloc: Global,
        base: Option<&LayerName>,
    ) -> Result<Pages, AllocError> {
        ask_pages(
            rt,
            alloc,
            &mut *self.steps,
            self.turn,
            &self.snapshot,
            &self.base,
            base,
        )
    }

    fn page<R: Wait>(&mut self, rt: &R, alloc: Global, page: u32) -> Result<(), GiveError> {
        let _ = alloc;
        give_page(
            rt,
            &mut *self.steps,
            &mut *self.channels,
            self.turn,
            &self.snapshot,
            page,
            &mut *self.rooms,
        )
    }

    fn given_page(&self) -> &[u8] {
        page_in(&self.rooms.reply)
    }
}

/// Which pages of the snapshot's copy have to be read: over the base that is asked for, where that is the one that can be
/// used.
fn ask_pages<R: Wait, C: BackupSteps>(
    rt: &R,
    alloc: Global,
    steps: &mut C,
    turn: TicketNumber,
    snapshot: &LayerName,
    base: &Option<LayerName>,
    asked: Option<&LayerName>,
) -> Result<Pages, AllocError>
    requires ready { C.ready steps.old }
    requires turn { (b s : List ℕ) × (o : OwnCall) × HasBackup turn b s o (C.mine steps.old) }
    requires live { IsSome (C.copies steps.old snapshot.now) }
    ensures stands { StandsStill C.ready C.home C.mine steps.old steps.new }
    ensures kept { KeepsCopies (C.copies steps.old) (C.copies steps.new) }
    ensures asks { IfOk result (C.asks steps.new snapshot.now
        (same_base base.now (option_map (λ n. n.now) asked.entry))) }
    ensures covers { IfOk result (Covers (C.copies steps.new) snapshot.now
        (same_base base.now (option_map (λ n. n.now) asked.entry))) }
{
    let known = same_base(base, asked);
    steps.backup_pages(rt, alloc, turn, snapshot, &known)
}

/// The base, where it is that one.
fn same_base(base: &Option<LayerName>, asked: Option<&LayerName>) -> Option<LayerName>
    ensures { result ≡ same_base base.now (option_map (λ n. n.now) asked.entry) }
{
    match (base, asked) {
        (Some(known), Some(name)) if known == name => Some(*known),
        _ => None,
    }
}

/// Has the lowest replica that is read give a page of the snapshot's copy, over its line. One that does not is passed
/// over: its line failed, and so it is not read any more.
fn give_page<R: Wait, C: BackupSteps, L: Line + Drop>(
    rt: &R,
    steps: &mut C,
    channels: &mut [Channel<L>],
    turn: TicketNumber,
    snapshot: &LayerName,
    page: u32,
    rooms: &mut PageRooms,
) -> Result<(), GiveError>
    requires serving { IsServing C.ready (λ s. with_running (C.mine s) []) L.count L.carried
        (record { steps = steps.old; channels = channels.old }) }
    requires turn { (b s : List ℕ) × (o : OwnCall) × HasBackup turn b s o (C.mine steps.old) }
    requires live { IsSome (C.copies steps.old snapshot.now) }
    requires page { IfSome (C.copies steps.old snapshot.now) (λ disk. page * PAGE_BYTES < length disk) }
    ensures serving { IsServing C.ready (λ s. with_running (C.mine s) []) L.count L.carried
        (record { steps = steps.new; channels = channels.new }) }
    ensures keeps { GivesOn C.home C.mine C.copies L.ends (record { steps = steps.old; channels = channels.old })
        (record { steps = steps.new; channels = channels.new }) }
    ensures ok { OnOk result (IsPageOf (C.copies steps.new snapshot.now) page (page_in rooms.new.reply.items)) }
    ensures gave { OnOk result (GavePage snapshot.now page (page_in rooms.new.reply.items)
        (map (λ c. L.carried c.line) channels.new)) }
    ensures none { IfErr result (λ e. finds_none e ≡ true → HasNoSource (C.modes steps.new)) }
{
    for _ in rt.forever() {
        let Some(replica) = steps.lowest(rt, turn) else {
            return Err(GiveError::NoReplica);
        };
        match page_from(rt, steps, channels, turn, snapshot, replica, page, rooms) {
            Ok(true) => return Ok(()),
            Ok(false) => {}
            Err(_) => return Err(GiveError::NoMemory),
        }
    }
    unreachable!()
}

/// Asks a replica for a page of the snapshot's copy, has it give the page, and carries that back: says whether all came
/// through.
fn page_from<R: Wait, C: BackupSteps, L: Line + Drop>(
    rt: &R,
    steps: &mut C,
    channels: &mut [Channel<L>],
    turn: TicketNumber,
    snapshot: &LayerName,
    replica: u8,
    page: u32,
    rooms: &mut PageRooms,
) -> Result<bool, AllocError>
    requires serving { IsServing C.ready (λ s. with_running (C.mine s) []) L.count L.carried
        (record { steps = steps.old; channels = channels.old }) }
    requires turn { (b s : List ℕ) × (o : OwnCall) × HasBackup turn b s o (C.mine steps.old) }
    requires line { replica < length channels.old }
    requires live { IsSome (C.copies steps.old snapshot.now) }
    requires page { IfSome (C.copies steps.old snapshot.now) (λ disk. page * PAGE_BYTES < length disk) }
    ensures serving { IsServing C.ready (λ s. with_running (C.mine s) []) L.count L.carried
        (record { steps = steps.new; channels = channels.new }) }
    ensures keeps { GivesOn C.home C.mine C.copies L.ends (record { steps = steps.old; channels = channels.old })
        (record { steps = steps.new; channels = channels.new }) }
    ensures ok { IfOk result (λ came. came ≡ true
        → IsPageOf (C.copies steps.new snapshot.now) page (page_in rooms.new.reply.items)) }
    ensures came { IfOk result (λ came. came ≡ true → TellsPage snapshot.now page (page_in rooms.new.reply.items)
        (line_at L.carried channels.old replica).told (line_at L.carried channels.new replica).told) }
{
    let offset = offset_of(page);
    fill_page_request(&mut rooms.request, snapshot, offset)?;
    make_long(&mut rooms.reply, PAGE_REPLY)?;
    if !pass_on(
        rt,
        steps,
        channels,
        turn,
        replica,
        &mut rooms.request,
        &mut rooms.arrivals,
    )? {
        return Ok(false);
    }
    let reply: &mut [u8] = &mut rooms.reply;
    if give_into(rt, steps, turn, replica, snapshot, page, reply).is_err() {
        return Ok(false);
    }
    put_page_head(reply, offset);
    pass_on(
        rt,
        steps,
        channels,
        turn,
        replica,
        reply,
        &mut rooms.arrivals,
    )
}

/// Has a replica give a page of the snapshot's copy into its reply, behind the place for the header: no one copies it.
fn give_into<R: Wait, C: BackupSteps>(
    rt: &R,
    steps: &mut C,
    turn: TicketNumber,
    replica: u8,
    snapshot: &LayerName,
    page: u32,
    reply: &mut [u8],
) -> Result<(), NotThis>
    requires ready { C.ready steps.old }
    requires turn { (b s : List ℕ) × (o : OwnCall) × HasBackup turn b s o (C.mine steps.old) }
    requires page { IfSome (C.copies steps.old snapshot.now) (λ disk. page * PAGE_BYTES < length disk) }
    requires live { IsSome (C.copies steps.old snapshot.now) }
    requires long { length reply.old ≡ header_length + PAGE_BYTES }
    ensures stands { StandsStill C.ready C.home C.mine steps.old steps.new }
    ensures kept { KeepsCopies (C.copies steps.old) (C.copies steps.new) }
    ensures ok { OnOk result (IsPageOf (C.copies steps.new snapshot.now) page (page_in reply.new)) }
{
    let into = &mut reply[HEADER_LENGTH..];
    steps.snap_page(rt, turn, replica, snapshot, page, into)
}

/// Carries a frame to a replica, by the next number of its line, and says whether it came through: where it did not, the
/// replica has failed.
fn pass_on<R: Wait, C: BackupSteps, L: Line + Drop>(
    rt: &R,
    steps: &mut C,
    channels: &mut [Channel<L>],
    turn: TicketNumber,
    replica: u8,
    frame: &mut [u8],
    room: &mut Vec<u8>,
) -> Result<bool, AllocError>
    requires serving { IsServing C.ready (λ s. with_running (C.mine s) []) L.count L.carried
        (record { steps = steps.old; channels = channels.old }) }
    requires turn { (b s : List ℕ) × (o : OwnCall) × HasBackup turn b s o (C.mine steps.old) }
    requires line { replica < length channels.old }
    requires frame { IsFrame frame.old }
    ensures serving { IsServing C.ready (λ s. with_running (C.mine s) []) L.count L.carried
        (record { steps = steps.new; channels = channels.new }) }
    ensures keeps { GivesOn C.home C.mine C.copies L.ends (record { steps = steps.old; channels = channels.old })
        (record { steps = steps.new; channels = channels.new }) }
    ensures came { IfOk result (λ came. came ≡ true → CarriesOn (line_at L.carried channels.old replica)
        (line_at L.carried channels.new replica) frame.old frame.new) }
{
    room.clear();
    room.reserve(frame.len())?;
    let channel = &mut channels[replica as usize];
    if carry_on(channel, frame, room) {
        return Ok(true);
    }
    let count = channel.line.faults();
    let _ = steps.backup_fault(rt, turn, replica, count);
    Ok(false)
}
