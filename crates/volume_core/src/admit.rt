//! A read or a write starts.

ghost use Rattle.std.specs.Prelude.{◌≡◌, ◌≢◌, ℕ, ◌+◌, ◌*◌, ◌<◌, ◌≤◌, length, IfOk, OnOk, OnErr};
ghost use Rattle.vol_units.specs.declared.size.TheConstants.{BLOCK_BYTES};
ghost use Rattle.volume_model.specs.Modes.{mode_of};
ghost use Rattle.range_turns.specs.Order.{ticket_at, IsClear};
ghost use Rattle.open_calls.specs.Calls.{open_at, node_at};
ghost use Rattle.open_calls.specs.Starts.{AreEdges, HaveRoom, KeepsNodes};
ghost use Rattle.volume_core.specs.State.{state_of, modes_in};
ghost use Rattle.volume_core.specs.Steps.{started};
ghost use Rattle.volume_core.specs.Sound.{IsSound, IsCalm};
ghost use Rattle.volume_core.specs.Places.{IsWaitingAt};
ghost use Rattle.volume_core.specs.Answers.{IsAdmit, IsRoomier, IsJobOf, Begins, BeginsRead, BeginsWrite};
ghost use Rattle.volume_core.specs.Streams.{ForOwner, MayGo, Stays, SeesAdmit};

use crate::world::World;
use journal_book::{Bytes, Mode, Refusal, Reply};
use open_calls::{Buffer, Parts, read_of};
use range_turns::{BlockRange, Kind, TicketNumber};
use replica_node::{BLOCK_BYTES, ReplicaNode};
use std::alloc::{AllocError, Global};
use step_answers::{Admit, Job};

impl World {
    /// Starts a read or a write that waits, if nothing earlier is in its way. It takes all memory that the call
    /// needs; out of memory leaves more places, and nothing else.
    pub fn admit(&mut self, alloc: Global, t: TicketNumber) -> Result<Admit, AllocError>
        requires sound { IsSound (state_of self.old) }
        requires waits { (i : ℕ) × IsWaitingAt (state_of self.old) t i }
        ensures sound { IsSound (state_of self.new) }
        ensures ok { IfOk result (λ a. IsAdmit (state_of self.old) t a (state_of self.new)) }
        ensures err { OnErr result (IsRoomier (state_of self.old) (state_of self.new)) }
        ensures may { ForOwner t (state_of self.old) (λ n c. MayGo n (state_of self.old) (state_of self.new)) }
        ensures sees { IfOk result (λ a.
            ForOwner t (state_of self.old) (λ n c. SeesAdmit n t c a (state_of self.old) (state_of self.new))) }
        ensures stays { OnErr result
            (ForOwner t (state_of self.old) (λ n c. Stays n (state_of self.old) (state_of self.new))) }
    {
        let i = self.waiting_at(t);
        if let Some(j) = self.turns.in_way(i) {
            return Ok(Admit::After(self.turns.ticket(j).number));
        }
        let buffer = self.buffer_for(alloc, i)?;
        self.make_place()?;
        match self.journal.source() {
            Some(source) => Ok(Admit::Go(self.begin(alloc, i, source, buffer)?)),
            None => Ok(Admit::NoReplica(self.end_at(i, Reply::Refused(Refusal::NoReplica)))),
        }
    }

    /// What the call at i reads into. It is made before all that stays of the call, so that it finds the memory which the
    /// read before it had.
    fn buffer_for(&self, alloc: Global, i: usize) -> Result<Buffer, AllocError>
        requires paired { length self.now.calls.items ≡ length self.now.turns.tickets }
        requires place { i < length self.now.turns.tickets }
        ensures { IfOk result (λ buffer. (ticket_at self.now.turns.tickets i).kind ≡ Kind.Read
            → length buffer ≡ (open_at self.now.calls.items i).length) }
    {
        match self.turns.ticket(i).kind {
            Kind::Read => Buffer::of_length(alloc, self.calls[i].length as usize),
            Kind::Write | Kind::Whole => Ok(Buffer::none(alloc)),
        }
    }

    /// The call at i starts, on a volume of which that replica is read; a read has this buffer.
    fn begin(
        &mut self,
        alloc: Global,
        i: usize,
        source: u8,
        buffer: Buffer,
    ) -> Result<Job, AllocError>
        requires calm { IsCalm (state_of self.old) }
        requires place { i < length self.old.turns.tickets }
        requires range { (ticket_at self.old.turns.tickets i).kind ≢ Kind.Whole }
        requires clear { IsClear self.old.turns.tickets i }
        requires source { mode_of (modes_in (state_of self.old)) source ≡ Mode.Rw }
        requires buffer { (ticket_at self.old.turns.tickets i).kind ≡ Kind.Read
            → length buffer ≡ (open_at self.old.calls.items i).length }
        ensures ok { OnOk result (Begins (state_of self.old) i source (state_of self.new)) }
        ensures job { IfOk result (IsJobOf (state_of self.new) i) }
        ensures err { OnErr result (IsRoomier (state_of self.old) (state_of self.new)) }
    {
        match self.turns.ticket(i).kind {
            Kind::Read => self.begin_read(alloc, i, buffer),
            Kind::Write => self.begin_write(alloc, i, source),
            Kind::Whole => unreachable!(),
        }
    }

    fn begin_read(&mut self, alloc: Global, i: usize, buffer: Buffer) -> Result<Job, AllocError>
        requires calm { IsCalm (state_of self.old) }
        requires place { i < length self.old.turns.tickets }
        requires kind { (ticket_at self.old.turns.tickets i).kind ≡ Kind.Read }
        requires buffer { length buffer ≡ (open_at self.old.calls.items i).length }
        requires clear { IsClear self.old.turns.tickets i }
        ensures ok { OnOk result (BeginsRead (state_of self.old) i (state_of self.new)) }
        ensures job { IfOk result (IsJobOf (state_of self.new) i) }
        ensures err { OnErr result (state_of self.new ≡ state_of self.old) }
    {
        let count = self.calls[i].length;
        self.make_data(count)?;
        self.start_at(i, Bytes::new(), Bytes::new(), buffer);
        Ok(self.job_of(i, Bytes::new(), Bytes::new()))
    }

    fn begin_write(&mut self, alloc: Global, i: usize, source: u8) -> Result<Job, AllocError>
        requires calm { IsCalm (state_of self.old) }
        requires place { i < length self.old.turns.tickets }
        requires kind { (ticket_at self.old.turns.tickets i).kind ≡ Kind.Write }
        requires clear { IsClear self.old.turns.tickets i }
        requires source { mode_of (modes_in (state_of self.old)) source ≡ Mode.Rw }
        ensures ok { OnOk result (BeginsWrite (state_of self.old) i source (state_of self.new)) }
        ensures job { IfOk result (IsJobOf (state_of self.new) i) }
        ensures err { OnErr result (IsRoomier (state_of self.old) (state_of self.new)) }
    {
        let range = self.turns.ticket(i).range;
        let (at, count) = (self.calls[i].at as usize, self.calls[i].length as usize);
        let (front, back) = edges_in(alloc, &mut self.nodes, source, range, at, count)?;
        let (front_too, back_too) = (front.clone()?, back.clone()?);
        make_rooms(alloc, &mut self.nodes, self.journal.modes(), range)?;
        self.start_at(i, front, back, Buffer::none(alloc));
        Ok(self.job_of(i, front_too, back_too))
    }

    fn start_at(&mut self, i: usize, front: Bytes, back: Bytes, buffer: Buffer)
        requires call { i < length self.old.calls.items }
        requires ticket { i < length self.old.turns.tickets }
        requires clear { IsClear self.old.turns.tickets i }
        ensures { state_of self.new ≡ started (state_of self.old) i self.old.nodes.items front back buffer }
    {
        let _replicas = self.journal.replica_count();
        let parts = Parts::of_modes(self.journal.modes());
        self.turns.start_at(i);
        let call = &mut self.calls[i];
        call.front = front;
        call.back = back;
        call.buffer = buffer;
        call.parts = parts;
    }

    /// What is carried of the call at i, of which these are the edges.
    fn job_of(&self, i: usize, front: Bytes, back: Bytes) -> Job
        requires call { i < length self.now.calls.items }
        requires ticket { i < length self.now.turns.tickets }
        requires front { front ≡ (open_at self.now.calls.items i).front }
        requires back { back ≡ (open_at self.now.calls.items i).back }
        ensures { IsJobOf (state_of self.now) i result }
    {
        Job {
            range: self.turns.ticket(i).range,
            parts: self.calls[i].parts.copied(),
            front,
            back,
        }
    }
}

/// What stays of one of the replicas in the blocks of a range, before and behind so many bytes from a place on.
fn edges_in(
    alloc: Global,
    nodes: &mut Vec<ReplicaNode>,
    source: u8,
    range: BlockRange,
    at: usize,
    count: usize,
) -> Result<(Bytes, Bytes), AllocError>
    requires there { source < length nodes.old.items }
    requires inside { range.end * BLOCK_BYTES ≤ length (node_at nodes.old.items source).disk }
    requires covers { (k : ℕ) → at ≤ k → k < at + count
        → (range.first * BLOCK_BYTES ≤ k) × (k < range.end * BLOCK_BYTES) }
    requires empty { count ≡ 0 → range.first * BLOCK_BYTES ≡ range.end * BLOCK_BYTES }
    requires good { at + count ≤ length (node_at nodes.old.items source).disk }
    ensures edges { IfOk result (λ e. AreEdges (range.first * BLOCK_BYTES) (range.end * BLOCK_BYTES) at count
        (node_at nodes.old.items source).disk e.0 e.1) }
    ensures same { nodes.new.items ≡ nodes.old.items }
{
    edges(alloc, &mut nodes[source as usize], range, at, count)
}

/// The same of that replica.
fn edges(
    alloc: Global,
    node: &mut ReplicaNode,
    range: BlockRange,
    at: usize,
    count: usize,
) -> Result<(Bytes, Bytes), AllocError>
    requires inside { range.end * BLOCK_BYTES ≤ length node.old.disk }
    requires covers { (k : ℕ) → at ≤ k → k < at + count
        → (range.first * BLOCK_BYTES ≤ k) × (k < range.end * BLOCK_BYTES) }
    requires empty { count ≡ 0 → range.first * BLOCK_BYTES ≡ range.end * BLOCK_BYTES }
    requires good { at + count ≤ length node.old.disk }
    ensures edges { IfOk result (λ e. AreEdges (range.first * BLOCK_BYTES) (range.end * BLOCK_BYTES) at count
        node.old.disk e.0 e.1) }
    ensures same { node.new ≡ node.old }
{
    // What the largest size is, a proof learns here.
    let _size = node.size();
    if count == 0 {
        return Ok((Bytes::new(), Bytes::new()));
    }
    let from = range.first as usize * BLOCK_BYTES;
    let until = range.end as usize * BLOCK_BYTES;
    let front = read_of(alloc, node, from, at - from)?;
    let back = read_of(alloc, node, at + count, until - at - count)?;
    Ok((front, back))
}

/// Makes places for a range in the heads of all replicas that have not failed.
fn make_rooms(
    alloc: Global,
    nodes: &mut Vec<ReplicaNode>,
    modes: &[Mode],
    range: BlockRange,
) -> Result<(), AllocError>
    requires inside { (r : ℕ) → mode_of modes.now r ≢ Mode.Err
        → range.end * BLOCK_BYTES ≤ length (node_at nodes.old.items r).disk }
    requires as_many { length modes.now ≡ length nodes.old.items }
    ensures ok { OnOk result (HaveRoom modes.now nodes.new.items range) }
    ensures keeps { KeepsNodes nodes.old.items nodes.new.items }
{
    for r in 0..modes.len() {
        if modes[r] != Mode::Err {
            nodes[r].make_room(alloc, range)?;
        }
    }
    Ok(())
}
