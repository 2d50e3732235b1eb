//! A frame of a rebuild on a line to a replica.

ghost use Rattle.std.specs.Prelude.{◌≡◌, ◌<◌, ◌≤◌, vec_capacity, true, false};
ghost use Rattle.client_worker.specs.Asking.{Arrives, TellsOn};
ghost use Rattle.rebuild_worker.specs.Copying.{CarriesOn};
ghost use Rattle.control_worker.specs.Copier.{on_line};

use client_worker::{Channel, Line};
use rebuild_worker::put_number;

/// Puts the number of its exchange into a frame, and carries it: a reply has that of the request before it on its line.
/// Says whether it came through.
pub(crate) fn carry_on<L: Line + Drop>(
    channel: &mut Channel<L>,
    bytes: &mut [u8],
    room: &mut Vec<u8>,
) -> bool
    requires frame { Arrives bytes.old (vec_capacity room.old) }
    ensures ends { L.ends channel.new.line ≡ L.ends channel.old.line }
    ensures later { L.count channel.old.line ≤ L.count channel.new.line }
    ensures failed { result ≡ false → L.count channel.old.line < L.count channel.new.line }
    ensures told { TellsOn (L.carried channel.old.line) (L.carried channel.new.line) }
    ensures carries { result ≡ true → CarriesOn (on_line L.carried channel.old) (on_line L.carried channel.new)
        bytes.old bytes.new }
{
    channel.seq = put_number(bytes, channel.seq);
    room.clear();
    channel.line.carry(bytes, room).is_ok()
}
