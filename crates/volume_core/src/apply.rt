//! The steps of a started call on one replica.

ghost use Rattle.std.specs.Prelude.{◌≡◌, ◌≢◌, ℕ, ◌+◌, ◌*◌, ◌<◌, ◌≤◌, length, OnOk, IfErr, OnErr};
ghost use Rattle.vol_units.specs.Bytes.{bytes_at};
ghost use Rattle.vol_units.specs.declared.size.TheConstants.{BLOCK_BYTES};
ghost use Rattle.volume_model.specs.Modes.{mode_of};
ghost use Rattle.range_turns.specs.Order.{ticket_at};
ghost use Rattle.replica_node.specs.Held.{IsChained};
ghost use Rattle.replica_node.specs.Room.{HasRoom, head_blocks};
ghost use Rattle.step_answers.specs.Parts.{IsTaken, part_at};
ghost use Rattle.open_calls.specs.Calls.{open_at, node_at};
ghost use Rattle.volume_core.specs.State.{state_of, modes_in};
ghost use Rattle.volume_core.specs.Steps.{wrote, has_read, acked};
ghost use Rattle.volume_core.specs.Sound.{IsSound};
ghost use Rattle.volume_core.specs.Places.{IsWriteAt, IsReadAt, IsCallAt};
ghost use Rattle.volume_core.specs.Answers.{AreBlocksOfWrite};
ghost use Rattle.volume_core.specs.Streams.{ForOwner, MayGo, Stays};
ghost use Rattle.volume_core.specs.Against.{AgainstWrite, AgainstRead, AgainstAck};

use crate::world::World;
use journal_book::Mode;
use open_calls::{Part, read_into};
use range_turns::TicketNumber;
use replica_node::Blocks;
use step_answers::NotThis;

impl World {
    /// A replica takes the blocks of a started write, which are swapped with those that its head had. It takes no
    /// memory.
    pub fn apply_write(
        &mut self,
        t: TicketNumber,
        replica: u8,
        blocks: &mut Blocks,
    ) -> Result<(), NotThis>
        requires sound { IsSound (state_of self.old) }
        requires blocks { (i : ℕ) → IsWriteAt (state_of self.old) t i
            → AreBlocksOfWrite (ticket_at self.old.turns.tickets i) (open_at self.old.calls.items i) blocks.old }
        ensures sound { IsSound (state_of self.new) }
        ensures ok { OnOk result ((i : ℕ) × IsWriteAt (state_of self.old) t i
            × (state_of self.new ≡ wrote (state_of self.old) i replica)) }
        ensures guard { OnOk result (mode_of (modes_in (state_of self.old)) replica ≢ Mode.Err) }
        ensures why { IfErr result (AgainstWrite (state_of self.old) t replica) }
        ensures err { OnErr result (state_of self.new ≡ state_of self.old) }
        ensures count { length blocks.new ≡ length blocks.old }
        ensures may { ForOwner t (state_of self.old) (λ n c. MayGo n (state_of self.old) (state_of self.new)) }
        ensures stays { ForOwner t (state_of self.old) (λ n c. Stays n (state_of self.old) (state_of self.new)) }
    {
        let Some(i) = self.write_at(t) else {
            return Err(NotThis::Ticket);
        };
        let mode = self.journal.mode(replica);
        if mode == Mode::Err {
            return Err(NotThis::Mode(mode));
        }
        self.write_on(i, replica, blocks);
        Ok(())
    }

    fn write_on(&mut self, i: usize, replica: u8, blocks: &mut Blocks)
        requires call { i < length self.old.calls.items }
        requires ticket { i < length self.old.turns.tickets }
        requires node { replica < length self.old.nodes.items }
        requires blocks { AreBlocksOfWrite (ticket_at self.old.turns.tickets i) (open_at self.old.calls.items i) blocks.old }
        requires room { HasRoom (node_at self.old.nodes.items replica) (ticket_at self.old.turns.tickets i).range }
        requires fits { (ticket_at self.old.turns.tickets i).range.end * BLOCK_BYTES
            ≤ length (node_at self.old.nodes.items replica).disk }
        ensures state { state_of self.new ≡ wrote (state_of self.old) i replica }
        ensures chained { (count : ℕ) × IsChained (node_at self.old.nodes.items replica) count }
        ensures count { length blocks.new ≡ length blocks.old }
    {
        let range = self.turns.ticket(i).range;
        self.calls[i].parts.set(replica, Part::Taken);
        let node = &mut self.nodes[replica as usize];
        // That the replica's own blocks make its readings, a proof learns here.
        let _count = node.block_count();
        node.write_blocks(range, blocks);
    }

    /// A replica gives the bytes of a started read, which are kept, and copied into a buffer of as many. It takes no
    /// memory.
    pub fn apply_read(
        &mut self,
        t: TicketNumber,
        replica: u8,
        into: &mut [u8],
    ) -> Result<(), NotThis>
        requires sound { IsSound (state_of self.old) }
        requires into { (i : ℕ) → IsReadAt (state_of self.old) t i
            → length into.old ≡ (open_at self.old.calls.items i).length }
        ensures sound { IsSound (state_of self.new) }
        ensures ok { OnOk result ((i : ℕ) × IsReadAt (state_of self.old) t i
            × (state_of self.new ≡ has_read (state_of self.old) i replica)
            × (into.new ≡ (open_at self.new.calls.items i).buffer)) }
        ensures guard { OnOk result (mode_of (modes_in (state_of self.old)) replica ≡ Mode.Rw) }
        ensures why { IfErr result (AgainstRead (state_of self.old) t replica) }
        ensures err { OnErr result (state_of self.new ≡ state_of self.old) }
        ensures same { OnErr result (into.new ≡ into.old) }
        ensures may { ForOwner t (state_of self.old) (λ n c. MayGo n (state_of self.old) (state_of self.new)) }
        ensures stays { ForOwner t (state_of self.old) (λ n c. Stays n (state_of self.old) (state_of self.new)) }
    {
        let Some(i) = self.read_at(t) else {
            return Err(NotThis::Ticket);
        };
        let mode = self.journal.mode(replica);
        if mode != Mode::Rw {
            return Err(NotThis::Mode(mode));
        }
        self.read_on(i, replica);
        into.copy_from_slice(self.calls[i].buffer.as_slice());
        Ok(())
    }

    fn read_on(&mut self, i: usize, replica: u8)
        requires call { i < length self.old.calls.items }
        requires node { replica < length self.old.nodes.items }
        requires fits { (open_at self.old.calls.items i).at + length (open_at self.old.calls.items i).buffer
            ≤ length (node_at self.old.nodes.items replica).disk }
        ensures { state_of self.new ≡ has_read (state_of self.old) i replica }
    {
        let call = &mut self.calls[i];
        read_into(
            &mut call.buffer,
            &mut self.nodes[replica as usize],
            call.at as usize,
        );
        call.parts.set(replica, Part::Taken);
    }

    /// A replica, which had its step of a started read or write, has acknowledged it. It takes no memory.
    pub fn ack(&mut self, t: TicketNumber, replica: u8) -> Result<(), NotThis>
        requires sound { IsSound (state_of self.old) }
        ensures sound { IsSound (state_of self.new) }
        ensures ok { OnOk result ((i : ℕ) × IsCallAt (state_of self.old) t i
            × IsTaken (part_at (open_at self.old.calls.items i).parts replica)
            × (state_of self.new ≡ acked (state_of self.old) i replica)) }
        ensures why { IfErr result (AgainstAck (state_of self.old) t replica) }
        ensures err { OnErr result (state_of self.new ≡ state_of self.old) }
        ensures may { ForOwner t (state_of self.old) (λ n c. MayGo n (state_of self.old) (state_of self.new)) }
        ensures stays { ForOwner t (state_of self.old) (λ n c. Stays n (state_of self.old) (state_of self.new)) }
    {
        let Some(i) = self.started_at(t) else {
            return Err(NotThis::Ticket);
        };
        match self.calls[i].parts.at(replica) {
            Part::Taken | Part::Acked => {
                self.ack_on(i, replica);
                Ok(())
            }
            Part::Apart | Part::Owed => Err(self.without_step(i, replica)),
        }
    }

    /// Why a replica that had no step of the call at i cannot acknowledge it.
    fn without_step(&self, i: usize, replica: u8) -> NotThis
        requires { ¬ IsTaken (part_at (open_at self.now.calls.items i).parts replica) }
        ensures { (t : ℕ) → IsCallAt (state_of self.now) t i → AgainstAck (state_of self.now) t replica result }
    {
        match self.journal.mode(replica) {
            Mode::Err => NotThis::Mode(Mode::Err),
            Mode::Rw | Mode::Wo => NotThis::Pending(replica),
        }
    }

    fn ack_on(&mut self, i: usize, replica: u8)
        requires { i < length self.old.calls.items }
        ensures { state_of self.new ≡ acked (state_of self.old) i replica }
    {
        self.calls[i].parts.set(replica, Part::Acked);
    }
}
