ghost use Rattle.std.specs.Prelude.{◌≡◌, ◌≤◌, ◌<◌, ◌↔◌, [], ◌++◌, length, take, drop};
ghost use Rattle.std.specs.Prelude.{slice_range, IsTrue, IfOk, OnOk, OnErr};
ghost use Rattle.frame_wire.specs.Spelling.{header_length};
ghost use Rattle.frame_wire.specs.Decoding.{Decodes};
ghost use Rattle.frame_stream.specs.Reading.{GivesNext, TakesNext, fed_more, front_of, IsWithin};

use crate::frame::Frame;
use bytes::BytesMut;
use frame_wire::{Decoded, HEADER_LENGTH, decode};
use std::alloc::{AllocError, Global};
use std::marker::Model;
use volume_model::Bytes;

/// What a reader of frames gives.
#[derive(Debug, Drop)]
pub enum Next {
    /// A whole frame.
    Frame(Frame),
    /// More bytes are needed.
    Short,
    /// No frame of the reader's limit stands at this place, whatever comes behind it.
    Bad(u64),
}

/// Reads frames from pieces of bytes, wherever a piece ends.
#[derive(Drop)]
pub struct FrameReader {
    /// What was fed before the piece and not given yet.
    held: BytesMut,
    /// What is left of the last piece.
    piece: Bytes,
    place: u64,
    most: u32,
}

impl Model for FrameReader {
    ghost use Rattle.std.specs.Prelude.{◌++◌};
    ghost use Rattle.frame_stream.specs.Reading.{Fed};

    ghost Value = { Fed };

    ghost view = { λ r. record { left = r.held.items ++ r.piece; place = r.place; most = r.most } };
}

impl FrameReader {
    /// A reader that takes frames with at most `most` bytes of data.
    pub fn new(alloc: Global, most: u32) -> FrameReader
        ensures { result ≡ record { left = []; place = 0; most = most } }
    {
        FrameReader {
            held: BytesMut::new(alloc),
            piece: Bytes::new(),
            place: 0,
            most,
        }
    }

    /// Takes a piece, which stands behind all that was fed before.
    pub fn feed(&mut self, piece: Bytes) -> Result<(), AllocError>
        ensures ok { OnOk result (self.new ≡ fed_more self.old piece) }
        ensures err { OnErr result (self.new ≡ self.old) }
    {
        self.held.extend_from_slice(self.piece.as_slice())?;
        self.piece = piece;
        Ok(())
    }

    /// Takes a piece that begins with all that is left, in place of it. Where the pieces are views of the same bytes, a
    /// frame over the end of one is then no copy either.
    pub fn refill(&mut self, piece: Bytes)
        requires { self.old.left ≡ take (length self.old.left) piece }
        ensures { self.new ≡ fed_more self.old (drop (length self.old.left) piece) }
    {
        self.held.clear();
        self.piece = piece;
    }

    /// The next frame, which is then no longer left. Its data shares the bytes that were fed, or those held.
    pub fn next(&mut self) -> Result<Next, AllocError>
        ensures next { IfOk result (GivesNext self.old self.new) }
        ensures err { OnErr result (self.new ≡ self.old) }
    {
        let (head, used) = match find(&mut self.held, &mut self.piece, self.most)? {
            Decoded::Frame(head, used) => (head, used),
            Decoded::Short => return Ok(Next::Short),
            Decoded::BadMagic(_) | Decoded::TooLong(_) => return Ok(Next::Bad(self.place)),
        };
        let body = cut(&mut self.held, &mut self.piece, used)?;
        self.place = self.place.wrapping_add(used as u64);
        Ok(Next::Frame(Frame { head, body }))
    }

    /// The header of the next frame, and how many bytes the frame takes, or why none is there. The frame is then no
    /// longer left. No view of its data is made.
    pub fn next_head(&mut self) -> Result<Decoded, AllocError>
        ensures next { IfOk result (TakesNext self.old self.new) }
        ensures err { OnErr result (self.new ≡ self.old) }
    {
        let found = find(&mut self.held, &mut self.piece, self.most)?;
        if let Decoded::Frame(_, count) = found {
            pass(&mut self.held, &mut self.piece, count);
            self.place = self.place.wrapping_add(count as u64);
        }
        Ok(found)
    }

    /// Whether all that was fed is given.
    pub fn is_empty(&self) -> bool
        ensures { IsTrue result ↔ (self.now.left ≡ []) }
    {
        self.held.is_empty() && self.piece.is_empty()
    }

    /// How many bytes are given, modulo 2^64.
    pub fn place(&self) -> u64
        ensures { result ≡ self.now.place }
    {
        self.place
    }
}

/// What the bytes held and the piece behind them decode to. Bytes of the piece go behind those that are held, as many
/// as their frame lacks.
#[inline]
fn find(held: &mut BytesMut, piece: &mut Bytes, most: u32) -> Result<Decoded, AllocError>
    ensures means { IfOk result (Decodes (held.old.items ++ piece.old) most) }
    ensures within { IfOk result (IsWithin (front_of held.new.items piece.new)) }
    ensures same { held.new.items ++ piece.new ≡ held.old.items ++ piece.old }
{
    if held.is_empty() {
        Ok(decode(piece.as_slice(), most))
    } else {
        find_behind(held, piece, most)
    }
}

/// The same, where some bytes are held. Few frames lie over the end of a piece.
#[inline(never)]
fn find_behind(held: &mut BytesMut, piece: &mut Bytes, most: u32) -> Result<Decoded, AllocError>
    ensures means { IfOk result (Decodes (held.old.items ++ piece.old) most) }
    ensures within { IfOk result (IsWithin (front_of held.new.items piece.new)) }
    ensures same { held.new.items ++ piece.new ≡ held.old.items ++ piece.old }
{
    let mut found = decode(held.as_slice(), most);
    while found == Decoded::Short && !piece.is_empty() {
        let count = lacking(held.as_slice()).min(piece.len());
        held.extend_from_slice(&piece.as_slice()[..count])?;
        piece.advance(count);
        found = decode(held.as_slice(), most);
    }
    Ok(found)
}

/// How many bytes the frame lacks that begins with those held, as far as they tell; one at least.
fn lacking(held: &[u8]) -> usize
    ensures { 0 < result }
{
    let Some(header) = held.first_chunk::<HEADER_LENGTH>() else {
        return HEADER_LENGTH - held.len();
    };
    // The length of the data is a header's last field.
    let len = u32::from_le_bytes([header[22], header[23], header[24], header[25]]);
    (HEADER_LENGTH + len as usize)
        .saturating_sub(held.len())
        .max(1)
}

/// The data of the frame that stands first and takes so many bytes, which are then gone. No byte is copied.
fn cut(held: &mut BytesMut, piece: &mut Bytes, used: usize) -> Result<Bytes, AllocError>
    requires header { header_length ≤ used }
    requires within { used ≤ length (front_of held.old.items piece.old) }
    ensures body { IfOk result (λ body.
        body ≡ slice_range (held.old.items ++ piece.old) header_length used) }
    ensures rest { OnOk result (held.new.items ++ piece.new ≡ drop used (held.old.items ++ piece.old)) }
    ensures err { OnErr result (held.new.items ++ piece.new ≡ held.old.items ++ piece.old) }
{
    if held.is_empty() {
        let body = piece.slice(HEADER_LENGTH..used)?;
        piece.advance(used);
        return Ok(body);
    }
    let mut body = held.freeze_to(used)?;
    body.advance(HEADER_LENGTH);
    Ok(body)
}

/// Passes over so many bytes.
fn pass(held: &mut BytesMut, piece: &mut Bytes, count: usize)
    requires { count ≤ length (front_of held.old.items piece.old) }
    ensures { held.new.items ++ piece.new ≡ drop count (held.old.items ++ piece.old) }
{
    if held.is_empty() {
        piece.advance(count);
    } else {
        held.advance(count);
    }
}
