//! A list of an entry, printed or hashed as it is kept.

ghost use Rattle.std.specs.Prelude.{◌≡◌, ◌++◌, replicate, OnOk, OnErr};
ghost use Rattle.image_runs.specs.Runs.{runs_text};
ghost use Rattle.packed_entries.specs.View.{list_seen};

use digest::Digest;
use image_runs::print_runs;
use packed_bytes::{PlainList, print_packed};
use packed_entries::{ListView, PackedList};
use std::alloc::AllocError;

/// How many bytes of a run are hashed at once.
const PIECE: usize = 1024;

/// Appends a list of an entry as runs.
pub(crate) fn print_list(list: &ListView<'_>, into: &mut Vec<u8>) -> Result<(), AllocError>
    ensures ok { OnOk result (into.new.items ≡ into.old.items ++ runs_text (list_seen list.now)) }
    ensures err { OnErr result (into.new.items ≡ into.old.items) }
{
    match list {
        ListView::Packed(list) => print_packed(list, into),
        ListView::Whole(bytes) => print_runs(bytes, into),
    }
}

/// Adds the bytes of a list of an entry.
pub(crate) fn digest_list(list: &ListView<'_>, digest: &mut Digest)
    ensures { digest.new ≡ digest.old ++ list_seen list.now }
{
    match list {
        ListView::Packed(list) => digest_packed(list, digest),
        ListView::Whole(bytes) => digest.add(bytes),
    }
}

fn digest_packed(list: &PackedList<'_>, digest: &mut Digest)
    ensures { digest.new ≡ digest.old ++ list.now }
{
    match list.plain() {
        Some(plain) => digest_plain(&plain, digest),
        None => digest_runs(list, digest),
    }
}

/// The same of one that is kept as it is, chunk by chunk.
fn digest_plain(list: &PlainList<'_>, digest: &mut Digest)
    ensures { digest.new ≡ digest.old ++ list.now }
{
    let mut next = 0;
    while next < list.len() {
        let piece = list.piece(next);
        digest.add(piece);
        next += piece.len();
    }
}

/// The same, run by run.
fn digest_runs(list: &PackedList<'_>, digest: &mut Digest)
    ensures { digest.new ≡ digest.old ++ list.now }
{
    let mut left = list.runs();
    while let Some((byte, count)) = left.next() {
        digest_run(byte, count, digest);
    }
}

/// Adds that byte so often.
fn digest_run(byte: u8, count: usize, digest: &mut Digest)
    ensures { digest.new ≡ digest.old ++ replicate count byte }
{
    let piece = [byte; PIECE];
    let mut left = count;
    while left > PIECE {
        digest.add(&piece);
        left -= PIECE;
    }
    digest.add(&piece[..left]);
}
