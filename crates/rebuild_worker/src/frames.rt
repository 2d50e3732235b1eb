//! The frames by which a page is copied.

ghost use Rattle.std.specs.Prelude.{◌≡◌, ◌==◌, ℕ, List, ◌*◌, ◌+◌, ◌≤◌, [], length, pos, vec_capacity, vec_len};
ghost use Rattle.vol_units.specs.declared.size.TheConstants.{PAGE_BYTES};
ghost use Rattle.frame_wire.specs.declared.head.Head.{Head};
ghost use Rattle.frame_wire.specs.Spelling.{frame, header_length, IsHead, IsFrame};
ghost use Rattle.page_text.specs.Text.{longest_text};
ghost use Rattle.rebuild_worker.specs.Frames.{ask_head, done_head, give_head, offset_of, response_kind, send_head, source_request};
ghost use Rattle.rebuild_worker.specs.Copying.{number_after, numbered};
ghost use Rattle.rebuild_worker.specs.Rooms.{text_in};

use frame_stream::{READ, WRITE};
use frame_wire::{HEADER_LENGTH, Head, encode_header};
use vol_units::{LayerName, PAGE_BYTES, PageRef};

/// The type of a frame that replies, as dataconn numbers it.
const RESPONSE: u32 = 2;

/// Where the page begins.
fn offset_of(page: &PageRef) -> i64
    ensures { result ≡ offset_of page.now }
{
    i64::from(page.page) * PAGE_BYTES as i64
}

/// Asks for a page by so many bytes of name. The number of the exchange comes with the carry.
fn ask_head(page: &PageRef, count: u32) -> Head
    ensures value { result ≡ ask_head 0 page.now count }
    ensures fits { IsHead result }
{
    Head {
        seq: 0,
        kind: READ,
        offset: offset_of(page),
        size: PAGE_BYTES as u32,
        len: count,
    }
}

/// Gives so many bytes of text.
pub(crate) fn give_head(page: &PageRef, count: u32) -> Head
    ensures value { result ≡ give_head 0 page.now count }
    ensures fits { IsHead result }
{
    Head {
        seq: 0,
        kind: RESPONSE,
        offset: offset_of(page),
        size: count,
        len: count,
    }
}

/// Sends so many.
pub(crate) fn send_head(page: &PageRef, count: u32) -> Head
    ensures value { result ≡ send_head 0 page.now count }
    ensures fits { IsHead result }
{
    Head {
        seq: 0,
        kind: WRITE,
        offset: offset_of(page),
        size: count,
        len: count,
    }
}

/// Has so many.
pub(crate) fn done_head(page: &PageRef, count: u32) -> Head
    ensures value { result ≡ done_head 0 page.now count }
    ensures fits { IsHead result }
{
    Head {
        seq: 0,
        kind: RESPONSE,
        offset: offset_of(page),
        size: count,
        len: 0,
    }
}

/// Makes the request for a page. It takes no memory.
#[tactic(auto, unfolding(crate::specs::Frames::source_request))]
pub(crate) fn fill_request(request: &mut Vec<u8>, page: &PageRef)
    requires room { header_length + 64 ≤ vec_capacity request.old }
    ensures asks { request.new.items ≡ source_request 0 page.now }
    ensures frame { IsFrame request.new.items }
    ensures room { vec_capacity request.old ≤ vec_capacity request.new }
{
    let name = bytes_of(&page.layer);
    request.clear();
    request
        .extend_from_slice(&encode_header(&ask_head(page, name.len() as u32)))
        .unwrap();
    request.extend_from_slice(name).unwrap();
}

/// The bytes of a name, which are few.
fn bytes_of(name: &LayerName) -> &[u8]
    ensures value { result.now ≡ name.now }
    ensures few { length result.now ≤ 64 }
{
    name.as_bytes()
}

/// Puts a header before the text of a page, whose first bytes are left for it.
pub(crate) fn put_header(bytes: &mut [u8], head: &Head)
    requires { header_length ≤ length bytes.old }
    ensures spelled { bytes.new ≡ frame head.now (text_in bytes.old) }
    ensures text { text_in bytes.new ≡ text_in bytes.old }
{
    bytes[..HEADER_LENGTH].copy_from_slice(&encode_header(head));
}

/// Puts the number of its exchange into a frame, and gives it: a reply has that of the request before it on its line, and
/// any other frame the next. What carries the frames of a copying asks for it.
pub fn put_number(bytes: &mut [u8], last: u32) -> u32
    requires { header_length ≤ length bytes.old }
    ensures spelled { (h : Head) (body : List ℕ) → bytes.old ≡ frame h body → bytes.new ≡ frame (numbered result h) body }
    ensures number { (h : Head) (body : List ℕ) → IsHead h → bytes.old ≡ frame h body → result ≡ number_after last h.kind }
{
    let seq = number_of(bytes, last);
    bytes[2..6].copy_from_slice(&seq.to_le_bytes());
    seq
}

/// The number of a frame's exchange.
fn number_of(bytes: &[u8], last: u32) -> u32
    requires { header_length ≤ length bytes.now }
    ensures { (h : Head) (body : List ℕ) → IsHead h → bytes.now ≡ frame h body → result ≡ number_after last h.kind }
{
    if is_reply(bytes) {
        return last;
    }
    last.wrapping_add(1)
}

/// Whether a frame is a reply.
fn is_reply(bytes: &[u8]) -> bool
    requires { header_length ≤ length bytes.now }
    ensures { (h : Head) (body : List ℕ) → IsHead h → bytes.now ≡ frame h body → result ≡ (h.kind == response_kind) }
{
    kind_of(bytes) == RESPONSE
}

/// The type of a frame.
fn kind_of(bytes: &[u8]) -> u32
    requires { header_length ≤ length bytes.now }
    ensures { (h : Head) (body : List ℕ) → IsHead h → bytes.now ≡ frame h body → result ≡ h.kind }
{
    u32::from_le_bytes([bytes[6], bytes[7], bytes[8], bytes[9]])
}
