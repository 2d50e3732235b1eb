//! A list of the journal, copied into room that was made for it.

ghost use Rattle.std.specs.Prelude.{◌≡◌, ◌+◌, ◌≤◌, [], ◌++◌, length, replicate, vec_capacity};
ghost use Rattle.packed_entries.specs.View.{list_seen};

use packed_bytes::{PackedList, PlainList};
use packed_entries::ListView;

/// The bytes of a list of an entry. It takes no memory.
pub(crate) fn copied(list: &ListView<'_>, room: Vec<u8>) -> Vec<u8>
    requires empty { room.items ≡ [] }
    requires place { length (list_seen list.now) ≤ vec_capacity room }
    ensures { result.items ≡ list_seen list.now }
{
    let mut room = room;
    match list {
        ListView::Packed(list) => copy_packed(list, &mut room),
        ListView::Whole(bytes) => room.extend_from_slice(bytes).unwrap(),
    }
    room
}

fn copy_packed(list: &PackedList<'_>, into: &mut Vec<u8>)
    requires { length into.old.items + length list.now ≤ vec_capacity into.old }
    ensures { into.new.items ≡ into.old.items ++ list.now }
{
    match list.plain() {
        Some(plain) => copy_plain(&plain, into),
        None => copy_runs(list, into),
    }
}

/// The same of one that is kept as it is, chunk by chunk.
fn copy_plain(list: &PlainList<'_>, into: &mut Vec<u8>)
    requires { length into.old.items + length list.now ≤ vec_capacity into.old }
    ensures { into.new.items ≡ into.old.items ++ list.now }
{
    let mut next = 0;
    while next < list.len() {
        let piece = list.piece(next);
        into.extend_from_slice(piece).unwrap();
        next += piece.len();
    }
}

/// The same, run by run.
fn copy_runs(list: &PackedList<'_>, into: &mut Vec<u8>)
    requires { length into.old.items + length list.now ≤ vec_capacity into.old }
    ensures { into.new.items ≡ into.old.items ++ list.now }
{
    let mut left = list.runs();
    while let Some((byte, count)) = left.next() {
        copy_run(byte, count, into);
    }
}

/// That byte so often.
fn copy_run(byte: u8, count: usize, into: &mut Vec<u8>)
    requires { length into.old.items + count ≤ vec_capacity into.old }
    ensures bytes { into.new.items ≡ into.old.items ++ replicate count byte }
    ensures room { vec_capacity into.old ≤ vec_capacity into.new }
{
    into.resize(into.len() + count, byte).unwrap();
}
