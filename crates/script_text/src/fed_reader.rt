ghost use Rattle.std.specs.Prelude.{◌≡◌, ◌<◌, ◌≤◌, ◌+◌, true, false, drop, length, IfOk, IfSome, IfNone, OnErr};
ghost use Rattle.frame_stream.specs.Frames.{BeginsWithFrame, HasNoFrame};
ghost use Rattle.frame_wire.specs.Spelling.{header_length};
ghost use Rattle.volume_model.specs.PlainStep.{longest_call};
ghost use Rattle.script_text.specs.Fed.{IsFed, BeginsWithHead};

use frame_stream::{Bytes, Decoded, Frame, FrameReader, Head, Next};
use frame_wire::HEADER_LENGTH;
use std::alloc::{AllocError, Global};
use std::marker::Model;
use vol_units::LONGEST_CALL;

/// How many bytes a reader has before it at once, where no frame is longer.
const PIECE: usize = 65_536;

/// How many bytes the longest frame has.
const LONGEST_FRAME: usize = HEADER_LENGTH + LONGEST_CALL as usize;

/// Reads frames from the bytes of a stream. A contract sees it as the bytes that are left, from the reader's place on.
#[derive(Drop)]
pub(crate) struct FedReader {
    reader: FrameReader,
    bytes: Bytes,
    /// Up to which of the bytes the reader was fed.
    end: usize,
}

impl Model for FedReader {
    ghost use Rattle.std.specs.Prelude.{ℕ, List, drop};
    ghost use Rattle.script_text.specs.Fed.{IsFed};

    ghost Value = { List ℕ };

    ghost view = { λ r. drop r.reader.place r.bytes };

    ghost invariant = { λ r. IsFed r.reader r.end r.bytes };
}

impl FedReader {
    pub(crate) fn of(alloc: Global, bytes: Bytes) -> FedReader
        ensures { result ≡ bytes }
    {
        // How long they can be, a proof learns here.
        let _len = bytes.len();
        FedReader {
            reader: FrameReader::new(alloc, LONGEST_CALL),
            bytes,
            end: 0,
        }
    }

    /// How many bytes are left.
    pub(crate) fn len(&self) -> usize
        ensures { result ≡ length self.now }
    {
        self.bytes.len() - self.reader.place() as usize
    }

    /// The frame that the bytes begin with, if they do, which is then no longer left. Its data shares the bytes.
    pub(crate) fn next(&mut self) -> Result<Option<Frame>, AllocError>
        ensures some { IfOk result (λ next. IfSome next (λ frame. BeginsWithFrame self.old frame self.new)) }
        ensures none { IfOk result (λ next. IfNone next (HasNoFrame self.old)) }
        ensures err { OnErr result (self.new ≡ self.old) }
    {
        next_of(&mut self.reader, &self.bytes, &mut self.end)
    }

    /// The header of that frame, which is then no longer left.
    pub(crate) fn next_head(&mut self) -> Result<Option<Head>, AllocError>
        ensures some { IfOk result (λ next. IfSome next (λ head. BeginsWithHead self.old head self.new)) }
        ensures none { IfOk result (λ next. IfNone next (HasNoFrame self.old)) }
        ensures err { OnErr result (self.new ≡ self.old) }
    {
        next_head_of(&mut self.reader, &self.bytes, &mut self.end)
    }
}

/// The frame that the bytes begin with from the reader's place on, if they do, which is then behind the reader.
fn next_of(
    reader: &mut FrameReader,
    bytes: &Bytes,
    end: &mut usize,
) -> Result<Option<Frame>, AllocError>
    requires { IsFed reader.old end.old bytes.now }
    ensures fed { IsFed reader.new end.new bytes.now }
    ensures some { IfOk result (λ next. IfSome next (λ frame.
        BeginsWithFrame (drop reader.old.place bytes.now) frame (drop reader.new.place bytes.now))) }
    ensures none { IfOk result (λ next. IfNone next (HasNoFrame (drop reader.old.place bytes.now))) }
    ensures err { OnErr result (reader.new.place ≡ reader.old.place) }
{
    loop {
        match reader.next()? {
            Next::Frame(frame) => return Ok(Some(frame)),
            Next::Bad(_) => return Ok(None),
            Next::Short => {
                if !has_more(reader, bytes, end)? {
                    return Ok(None);
                }
            }
        }
    }
}

/// The header of that frame. Of its data no view is made.
fn next_head_of(
    reader: &mut FrameReader,
    bytes: &Bytes,
    end: &mut usize,
) -> Result<Option<Head>, AllocError>
    requires { IsFed reader.old end.old bytes.now }
    ensures fed { IsFed reader.new end.new bytes.now }
    ensures some { IfOk result (λ next. IfSome next (λ head.
        BeginsWithHead (drop reader.old.place bytes.now) head (drop reader.new.place bytes.now))) }
    ensures none { IfOk result (λ next. IfNone next (HasNoFrame (drop reader.old.place bytes.now))) }
    ensures err { OnErr result (reader.new.place ≡ reader.old.place) }
{
    loop {
        match reader.next_head()? {
            Decoded::Frame(head, _) => return Ok(Some(head)),
            Decoded::BadMagic(_) | Decoded::TooLong(_) => return Ok(None),
            Decoded::Short => {
                if !has_more(reader, bytes, end)? {
                    return Ok(None);
                }
            }
        }
    }
}

/// Feeds a reader that finds no whole frame more of the bytes, and says whether there are more.
fn has_more(reader: &mut FrameReader, bytes: &Bytes, end: &mut usize) -> Result<bool, AllocError>
    requires fed { IsFed reader.old end.old bytes.now }
    requires short { length reader.old.left < header_length + longest_call }
    ensures fed { IsFed reader.new end.new bytes.now }
    ensures place { reader.new.place ≡ reader.old.place }
    ensures more { IfOk result (λ more. more ≡ true → end.old < end.new) }
    ensures all { IfOk result (λ more. more ≡ false → end.old ≡ length bytes.now) }
{
    if *end == bytes.len() {
        return Ok(false);
    }
    let place = reader.place() as usize;
    let more = bytes.len().min(place + more_than(*end - place));
    reader.refill(bytes.slice(place..more)?);
    *end = more;
    Ok(true)
}

/// How many bytes a reader gets that finds no whole frame in so many: a piece, or as many as the longest frame has.
fn more_than(count: usize) -> usize
    requires { count < header_length + longest_call }
    ensures more { count < result }
    ensures most { result ≤ header_length + longest_call }
{
    if count < PIECE { PIECE } else { LONGEST_FRAME }
}
