//! The frames on a line that ask a replica for its part of a command, and its replies.

ghost use Rattle.std.specs.Prelude.{◌≡◌, ◌*◌, ◌+◌, ◌≤◌, ◌++◌, length, drop, pos, vec_capacity, vec_len, codes, OnOk};
ghost use Rattle.vol_units.specs.declared.size.TheConstants.{PAGE_BYTES};
ghost use Rattle.frame_wire.specs.Spelling.{header_length, frame, IsFrame, IsHead};
ghost use Rattle.client_worker.specs.Frames.{read_reply, read_reply_head};
ghost use Rattle.control_worker.specs.Frames.{AsksBy, ask_head, done_head, fold_text, longest_text, page_head, page_request};
ghost use Rattle.control_worker.specs.Frames.{page_in, pair_text, part_text};

use client_worker::put_header;
use frame_stream::{PING, READ};
use frame_wire::{HEADER_LENGTH, Head};
use std::alloc::AllocError;
use step_answers::WholeOp;
use vol_units::{LayerName, PAGE_BYTES};
use volume_model::FoldOrDrop;

/// The type of a frame that replies, as dataconn numbers it.
const RESPONSE: u32 = 2;

/// Asks with so many bytes of text.
pub(crate) fn ask_head(seq: u32, offset: i64, count: u32) -> Head
    ensures value { result ≡ ask_head seq offset count }
    ensures fits { IsHead result }
{
    Head {
        seq,
        kind: PING,
        offset,
        size: 0,
        len: count,
    }
}

/// Tells that it is done.
pub(crate) fn done_head(seq: u32, offset: i64) -> Head
    ensures value { result ≡ done_head seq offset }
    ensures fits { IsHead result }
{
    Head {
        seq,
        kind: RESPONSE,
        offset,
        size: 0,
        len: 0,
    }
}

/// Where a page begins.
pub(crate) fn offset_of(page: u32) -> i64
    ensures { result ≡ pos (page * PAGE_BYTES) }
{
    i64::from(page) * PAGE_BYTES as i64
}

/// Makes the request for a replica's part, but for its header: of a barrier, without the snapshot's name. It takes no
/// memory.
pub(crate) fn fill_part(request: &mut Vec<u8>, op: &WholeOp)
    requires room { header_length + longest_text ≤ vec_capacity request.old }
    ensures asks { AsksBy (part_text op.now) request.new.items }
    ensures room { vec_capacity request.old ≤ vec_capacity request.new }
{
    match op {
        WholeOp::Snapshot(name) => fill(request, b"snapshot ", name.as_bytes()),
        WholeOp::Remove(name) => fill(request, b"remove ", bytes_of(name)),
        WholeOp::Revert(name) => fill(request, b"revert ", bytes_of(name)),
        WholeOp::Purge(FoldOrDrop::Fold { parent, child }) => {
            fill_pair(request, b"replace ", parent, child)
        }
        WholeOp::Purge(FoldOrDrop::Drop(name)) => fill(request, b"delete ", bytes_of(name)),
        WholeOp::Barrier(_) => fill(request, b"snapshot ", b""),
    }
}

/// Makes the request for a replica's part of a barrier, but for its header. It takes no memory.
pub(crate) fn fill_barrier(request: &mut Vec<u8>, name: &LayerName)
    requires room { header_length + longest_text ≤ vec_capacity request.old }
    ensures asks { AsksBy (codes "snapshot " ++ name.now) request.new.items }
    ensures room { vec_capacity request.old ≤ vec_capacity request.new }
{
    fill(request, b"snapshot ", bytes_of(name));
}

/// Makes the request for the fold of a page, but for its header. It takes no memory.
pub(crate) fn fill_fold(request: &mut Vec<u8>, parent: &LayerName, child: &LayerName)
    requires room { header_length + longest_text ≤ vec_capacity request.old }
    ensures asks { AsksBy (fold_text parent.now child.now) request.new.items }
    ensures room { vec_capacity request.old ≤ vec_capacity request.new }
{
    fill_pair(request, b"fold ", parent, child);
}

/// Makes the request for a page of a snapshot's copy, from that offset on: the data is the snapshot's name.
pub(crate) fn fill_page_request(
    request: &mut Vec<u8>,
    snapshot: &LayerName,
    offset: i64,
) -> Result<(), AllocError>
    ensures frame { OnOk result (request.new.items ≡ page_request 0 offset snapshot.now) }
    ensures whole { OnOk result (IsFrame request.new.items) }
{
    let name = bytes_of(snapshot);
    make_room(request, name)?;
    put_header(
        request,
        &page_head(offset, PAGE_BYTES as u32, name.len() as u32),
    );
    Ok(())
}

/// Asks for so many bytes of a snapshot's copy, by a name that is so long.
fn page_head(offset: i64, size: u32, len: u32) -> Head
    ensures value { result ≡ page_head 0 offset size len }
    ensures fits { IsHead result }
{
    Head {
        seq: 0,
        kind: READ,
        offset,
        size,
        len,
    }
}

/// Puts the header of a reply before the page that it gives, from that offset on.
pub(crate) fn put_page_head(reply: &mut [u8], offset: i64)
    requires long { length reply.old ≡ header_length + PAGE_BYTES }
    ensures frame { reply.new ≡ read_reply 0 offset (page_in reply.old) }
    ensures head { IsHead (read_reply_head 0 offset (length (page_in reply.old))) }
    ensures whole { IsFrame reply.new }
{
    put_header(reply, &page_reply_head(offset, PAGE_BYTES as u32));
}

/// The page that a reply gives: it stands behind the header.
pub(crate) fn page_in(reply: &[u8]) -> &[u8]
    ensures { result.now ≡ page_in reply.now }
{
    if reply.len() < HEADER_LENGTH {
        return &[];
    }
    reply.split_at(HEADER_LENGTH).1
}

/// Gives so many bytes.
fn page_reply_head(offset: i64, count: u32) -> Head
    ensures value { result ≡ read_reply_head 0 offset count }
    ensures fits { IsHead result }
{
    Head {
        seq: 0,
        kind: RESPONSE,
        offset,
        size: count,
        len: count,
    }
}

/// Makes a frame so long, of which the bytes are to be written. It costs nothing where it is so long already.
pub(crate) fn make_long(frame: &mut Vec<u8>, count: usize) -> Result<(), AllocError>
    ensures { OnOk result (length frame.new.items ≡ count) }
{
    frame.resize(count, 0)
}

/// A place for the header, and these bytes.
fn make_room(frame: &mut Vec<u8>, bytes: &[u8]) -> Result<(), AllocError>
    requires few { length bytes.now ≤ PAGE_BYTES }
    ensures long { OnOk result (length frame.new.items ≡ header_length + length bytes.now) }
    ensures tells { OnOk result (drop header_length frame.new.items ≡ bytes.now) }
{
    frame.clear();
    frame.reserve(HEADER_LENGTH + bytes.len())?;
    frame.extend_from_slice(&[0; HEADER_LENGTH])?;
    frame.extend_from_slice(bytes)
}

/// A place for the header, a word, and a name.
fn fill(request: &mut Vec<u8>, word: &[u8], name: &[u8])
    requires word { length word.now ≤ 9 }
    requires name { length name.now ≤ 64 }
    requires room { header_length + longest_text ≤ vec_capacity request.old }
    ensures asks { AsksBy (word.now ++ name.now) request.new.items }
    ensures long { length request.new.items ≡ header_length + (length word.now + length name.now) }
    ensures room { vec_capacity request.old ≤ vec_capacity request.new }
{
    request.clear();
    request.extend_from_slice(&[0; HEADER_LENGTH]).unwrap();
    request.extend_from_slice(word).unwrap();
    request.extend_from_slice(name).unwrap();
}

/// A place for the header, a word, and two names.
fn fill_pair(request: &mut Vec<u8>, word: &[u8], first: &LayerName, second: &LayerName)
    requires word { length word.now ≤ 8 }
    requires room { header_length + longest_text ≤ vec_capacity request.old }
    ensures asks { AsksBy (word.now ++ pair_text first.now second.now) request.new.items }
    ensures room { vec_capacity request.old ≤ vec_capacity request.new }
{
    fill(request, word, bytes_of(first));
    request.extend_from_slice(b" ").unwrap();
    request.extend_from_slice(bytes_of(second)).unwrap();
}

/// The bytes of a name, which are few.
fn bytes_of(name: &LayerName) -> &[u8]
    ensures value { result.now ≡ name.now }
    ensures few { length result.now ≤ 64 }
{
    name.as_bytes()
}
