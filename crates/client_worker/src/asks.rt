//! A replica is asked for its part of the open call.

ghost use Rattle.std.specs.Prelude.{◌≡◌, ℕ, ◌+◌, ◌<◌, ◌≤◌, true, false, length, drop, vec_capacity, OnOk, OnErr, IfErr};
ghost use Rattle.volume_model.specs.Modes.{IsSource};
ghost use Rattle.frame_wire.specs.Spelling.{header_length};
ghost use Rattle.stream_steps.specs.Mine.{OwnCall, IsOwn};
ghost use Rattle.stream_steps.specs.Steps.{TakesTo};
ghost use Rattle.client_worker.specs.Serving.{KeepsOpen};
ghost use Rattle.client_worker.specs.Ends.{EndsOpen};
ghost use Rattle.client_worker.specs.Asking.{Falls, WasAsked, AckedOrUnread};
ghost use Rattle.client_worker.specs.Rooms.{AreBoxes, CarriesWrite, IsOpenRead};
ghost use Rattle.client_worker.specs.Working.{Stays, StaysHome};

use crate::carrier::Carrier;
use crate::channel::next_exchange;
use crate::frames::{put_header, read_head, read_reply_head, write_head, write_reply_head};
use crate::opened::{AfterPart, OpenRead, WritePart};
use frame_wire::{HEADER_LENGTH, encode_header};
use outer_traits::Line;
use sparse_image::Blocks;
use std::sync::Wait;
use stream_steps::ClientSteps;

impl<C: ClientSteps + Drop, L: Line + Drop> Carrier<C, L> {
    /// Asks a replica for its part of the open write, whose request is there but for the header, and says whether the write
    /// is answered now, and else which replica is next.
    pub(crate) fn ask_write<R: Wait>(
        &mut self,
        rt: &R,
        part: &WritePart,
        request: &mut [u8],
        blocks: &mut Blocks,
        room: &mut Vec<u8>,
    ) -> AfterPart
        requires line { part.now.replica < length self.old.channels }
        requires room { header_length + length request.old ≤ vec_capacity room.old }
        requires own { (o : OwnCall) × (n : ℕ) × IsOwn part.now.ticket o (C.mine self.old.steps)
            × CarriesWrite o part.now.first n request.old × AreBoxes n blocks.old }
        ensures stays { Stays C.home L.ends self.old self.new }
        ensures room { vec_capacity room.old ≤ vec_capacity room.new }
        ensures request { drop header_length request.new ≡ drop header_length request.old }
        ensures asked { WasAsked (C.modes self.new.steps) part.now.replica (C.mine self.old.steps)
            (C.mine self.new.steps) result }
    {
        let WritePart {
            ticket,
            first,
            replica,
        } = *part;
        let seq = next_exchange(&mut self.channels, replica);
        let count = (request.len() - HEADER_LENGTH) as u32;
        put_header(request, &write_head(seq, first, count));
        if let Err(next) = self.pass(rt, replica, request, room) {
            return AfterPart::GoesOn(next);
        }
        if let Err(next) = self.take_write(rt, part, request, blocks) {
            return AfterPart::GoesOn(next);
        }
        let reply = encode_header(&write_reply_head(seq, first, count));
        self.reply_with(rt, ticket, replica, &reply, room)
    }

    /// A replica takes the open write, whose request came through. Where it does not, since it has failed, which is next
    /// is said.
    fn take_write<R: Wait>(
        &mut self,
        rt: &R,
        part: &WritePart,
        request: &[u8],
        blocks: &mut Blocks,
    ) -> Result<(), Option<u8>>
        requires own { (o : OwnCall) × (n : ℕ) × IsOwn part.now.ticket o (C.mine self.old.steps)
            × CarriesWrite o part.now.first n request.now × AreBoxes n blocks.old }
        ensures stays { StaysHome C.home self.old self.new }
        ensures taken { OnOk result ((o : OwnCall) → IsOwn part.now.ticket o (C.mine self.old.steps)
            → TakesTo o part.now.replica o.buffer (C.mine self.old.steps) (C.mine self.new.steps)) }
        ensures same { OnErr result (C.mine self.new.steps ≡ C.mine self.old.steps) }
        ensures falls { IfErr result (Falls (C.modes self.new.steps) part.now.replica
            (C.mine self.old.steps) (C.mine self.new.steps)) }
    {
        blocks.fill(&request[HEADER_LENGTH..]);
        let taken = self
            .steps
            .apply_write(rt, part.ticket, part.replica, blocks);
        match taken.answer {
            Ok(()) => Ok(()),
            Err(_) => Err(taken.next),
        }
    }

    /// Asks the lowest replica that is read for the bytes of the open read, for which the reply has the room, and says
    /// whether the read is answered now.
    pub(crate) fn ask_read<R: Wait>(
        &mut self,
        rt: &R,
        read: &OpenRead,
        replica: u8,
        reply: &mut [u8],
        room: &mut Vec<u8>,
    ) -> bool
        requires line { replica < length self.old.channels }
        requires source { IsSource (C.modes self.old.steps) replica }
        requires room { header_length + length reply.old ≤ vec_capacity room.old }
        requires own { IsOpenRead read.now (C.mine self.old.steps) reply.old }
        ensures stays { Stays C.home L.ends self.old self.new }
        ensures room { vec_capacity room.old ≤ vec_capacity room.new }
        ensures done { result ≡ true → EndsOpen (C.mine self.old.steps) (C.mine self.new.steps) }
        ensures goes { result ≡ false → KeepsOpen (C.mine self.old.steps) (C.mine self.new.steps) }
        ensures asked { result ≡ false → AckedOrUnread (C.modes self.new.steps) replica (C.mine self.new.steps) }
    {
        let OpenRead {
            ticket,
            offset,
            count,
        } = *read;
        let seq = next_exchange(&mut self.channels, replica);
        let request = encode_header(&read_head(seq, offset, count));
        if self.pass(rt, replica, &request, room).is_err() {
            return false;
        }
        let bytes = &mut reply[HEADER_LENGTH..];
        if self.steps.apply_read(rt, ticket, replica, bytes).is_err() {
            return false;
        }
        put_header(reply, &read_reply_head(seq, offset, count));
        self.reply_with(rt, ticket, replica, reply, room)
            .is_answered()
    }
}
