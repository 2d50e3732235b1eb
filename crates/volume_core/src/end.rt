//! A call ends with its answer, or is withdrawn.

ghost use Rattle.std.specs.Prelude.{◌≡◌, ◌≢◌, ℕ, ◌<◌, ◌≤◌, length, OnOk, IfOk, IfErr, OnErr};
ghost use Rattle.volume_model.specs.declared.call.Reply.{Reply};
ghost use Rattle.range_turns.specs.declared.ticket.Kind.TheVariants as kind;
ghost use Rattle.range_turns.specs.Order.{ticket_at};
ghost use Rattle.open_calls.specs.Calls.{open_at, call_asked};
ghost use Rattle.packed_entries.specs.Plain.{data_in};
ghost use Rattle.volume_core.specs.Data.{owed_call};
ghost use Rattle.volume_core.specs.State.{state_of, index_at};
ghost use Rattle.volume_core.specs.Steps.{ended, without_call};
ghost use Rattle.volume_core.specs.Sound.{IsSound, IsCalm};
ghost use Rattle.volume_core.specs.Places.{IsWriteAt, IsReadAt, IsWaitingAt};
ghost use Rattle.volume_core.specs.Answers.{EndsWrite, EndsRead, Completes};
ghost use Rattle.volume_core.specs.Streams.{ForOwner, MayGo, Stays, IsAnsweredTo, IsTakenBack};
ghost use Rattle.volume_core.specs.Against.{AgainstEnd, IsPendingWrite, IsPendingRead};

use crate::world::World;
use journal_book::{Call, Refusal, Reply};
use range_turns::TicketNumber;
use step_answers::NotThis;

impl World {
    /// Ends a started read or write, and gives the place of its answer: a read once a replica has acknowledged it, a
    /// write once each has or has failed, and either where no replica is left. It takes no memory.
    pub fn complete(&mut self, t: TicketNumber) -> Result<u64, NotThis>
        requires sound { IsSound (state_of self.old) }
        ensures sound { IsSound (state_of self.new) }
        ensures place { IfOk result (λ place. place ≡ length self.old.journal.entries) }
        ensures ok { OnOk result (Completes (state_of self.old) t (state_of self.new)) }
        ensures why { IfErr result (AgainstEnd (state_of self.old) t) }
        ensures err { OnErr result (state_of self.new ≡ state_of self.old) }
        ensures may { ForOwner t (state_of self.old) (λ n c. MayGo n (state_of self.old) (state_of self.new)) }
        ensures sees { IfOk result (λ place.
            ForOwner t (state_of self.old) (λ n c. IsAnsweredTo n c (state_of self.old) (state_of self.new))) }
        ensures stays { OnErr result
            (ForOwner t (state_of self.old) (λ n c. Stays n (state_of self.old) (state_of self.new))) }
    {
        if let Some(i) = self.write_at(t) {
            return match self.complete_write(i) {
                Ok(place) => Ok(place),
                Err(replica) => Err(NotThis::Pending(replica)),
            };
        }
        match self.read_at(t) {
            Some(i) => match self.complete_read(i) {
                Ok(place) => Ok(place),
                Err(replica) => Err(NotThis::Pending(replica)),
            },
            None => Err(NotThis::Ticket),
        }
    }

    /// Ends the write at i, unless that replica has still to acknowledge it.
    fn complete_write(&mut self, i: usize) -> Result<u64, u8>
        requires sound { IsSound (state_of self.old) }
        requires calm { IsCalm (state_of self.old) }
        requires is { (t : ℕ) × IsWriteAt (state_of self.old) t i }
        ensures sound { IsSound (state_of self.new) }
        ensures place { IfOk result (λ place. place ≡ length self.old.journal.entries) }
        ensures ok { OnOk result ((reply : Reply) × EndsWrite (state_of self.old) i reply
            × (state_of self.new ≡ ended (state_of self.old) i reply)) }
        ensures why { IfErr result (IsPendingWrite (state_of self.old) i) }
        ensures err { OnErr result (state_of self.new ≡ state_of self.old) }
    {
        let _replicas = self.journal.replica_count();
        if let Some(replica) = self.calls[i].parts.first_pending(self.journal.modes()) {
            return Err(replica);
        }
        match self.journal.source() {
            Some(_) => Ok(self.end_at(i, Reply::Done)),
            None => Ok(self.end_at(i, Reply::Refused(Refusal::NoReplica))),
        }
    }

    /// Ends the read at i, unless that replica is left to give its bytes.
    fn complete_read(&mut self, i: usize) -> Result<u64, u8>
        requires sound { IsSound (state_of self.old) }
        requires calm { IsCalm (state_of self.old) }
        requires is { (t : ℕ) × IsReadAt (state_of self.old) t i }
        ensures sound { IsSound (state_of self.new) }
        ensures place { IfOk result (λ place. place ≡ length self.old.journal.entries) }
        ensures ok { OnOk result ((reply : Reply) × EndsRead (state_of self.old) i reply
            × (state_of self.new ≡ ended (state_of self.old) i reply)) }
        ensures why { IfErr result (IsPendingRead (state_of self.old) i) }
        ensures err { OnErr result (state_of self.new ≡ state_of self.old) }
    {
        if let Some(_replica) = self.calls[i].parts.first_acked() {
            return Ok(self.end_read(i));
        }
        match self.journal.source() {
            Some(replica) => Err(replica),
            None => Ok(self.end_at(i, Reply::Refused(Refusal::NoReplica))),
        }
    }

    /// The read at i ends with the bytes in its buffer.
    fn end_read(&mut self, i: usize) -> u64
        requires call { i < length self.old.calls.items }
        requires ticket { i < length self.old.turns.tickets }
        requires kind { (ticket_at self.old.turns.tickets i).kind ≡ kind.Read }
        requires stream { (open_at self.old.calls.items i).stream < length self.old.indices.items }
        requires few { index_at self.old.indices.items (open_at self.old.calls.items i).stream
            ≤ length self.old.journal.entries }
        requires spare { 0 < self.old.journal.spare }
        requires spare_data { owed_call (open_at self.old.calls.items i) ≤ self.old.journal.spare_data }
        ensures place { result ≡ length self.old.journal.entries }
        ensures state { state_of self.new
            ≡ ended (state_of self.old) i (Reply.Read (open_at self.old.calls.items i).buffer) }
    {
        self.turns.end_at(i);
        let open = self.calls.remove(i);
        let call = Call::Read {
            offset: i64::from(open.at),
            length: open.length,
        };
        let reply = Reply::Read(open.buffer.into_sequence());
        self.push_answer(open.stream, open.saw, call, reply)
    }

    /// The read or write at i ends with that reply.
    pub(crate) fn end_at(&mut self, i: usize, reply: Reply) -> u64
        requires call { i < length self.old.calls.items }
        requires ticket { i < length self.old.turns.tickets }
        requires kind { (ticket_at self.old.turns.tickets i).kind ≢ kind.Whole }
        requires stream { (open_at self.old.calls.items i).stream < length self.old.indices.items }
        requires few { index_at self.old.indices.items (open_at self.old.calls.items i).stream
            ≤ length self.old.journal.entries }
        requires spare { 0 < self.old.journal.spare }
        requires spare_data { length (data_in (call_asked (ticket_at self.old.turns.tickets i).kind
            (open_at self.old.calls.items i)) reply) ≤ self.old.journal.spare_data }
        ensures place { result ≡ length self.old.journal.entries }
        ensures state { state_of self.new ≡ ended (state_of self.old) i reply }
    {
        let kind = self.turns.ticket(i).kind;
        self.turns.end_at(i);
        let open = self.calls.remove(i);
        let (stream, saw) = (open.stream, open.saw);
        self.push_answer(stream, saw, open.into_call(kind), reply)
    }

    /// Takes back a read or a write that has not started. It takes no memory.
    pub fn withdraw(&mut self, t: TicketNumber)
        requires sound { IsSound (state_of self.old) }
        requires waits { (i : ℕ) × IsWaitingAt (state_of self.old) t i }
        ensures sound { IsSound (state_of self.new) }
        ensures gone { (i : ℕ) × IsWaitingAt (state_of self.old) t i
            × (state_of self.new ≡ without_call (state_of self.old) i) }
        ensures may { ForOwner t (state_of self.old) (λ n c. MayGo n (state_of self.old) (state_of self.new)) }
        ensures sees { ForOwner t (state_of self.old)
            (λ n c. IsTakenBack n (state_of self.old) (state_of self.new)) }
    {
        self.take_out(self.waiting_at(t));
    }

    fn take_out(&mut self, i: usize)
        requires call { i < length self.old.calls.items }
        requires ticket { i < length self.old.turns.tickets }
        ensures { state_of self.new ≡ without_call (state_of self.old) i }
    {
        self.turns.end_at(i);
        self.calls.remove(i);
    }
}
