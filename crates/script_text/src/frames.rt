ghost use Rattle.std.specs.Prelude.{◌≡◌, ◌∷◌, [], length, map, IfOk, IfSome, IfNone, OnErr};
ghost use Rattle.script_text.specs.Kept.{first_frames, HoldFrames};

use crate::fed_reader::FedReader;
use frame_stream::{Bytes, Frame, Head};
use std::alloc::{AllocError, Global};
use std::marker::Model;

/// The frames of a stream: how many they are, and the stream's bytes, from which they are read as they are wanted.
/// A contract sees it as the list of the frames.
#[derive(Debug, Drop)]
pub struct Frames {
    count: usize,
    bytes: Bytes,
}

impl Model for Frames {
    ghost use Rattle.std.specs.Prelude.{List};
    ghost use Rattle.frame_stream.specs.declared.frame.Frame.{Frame as Item};
    ghost use Rattle.script_text.specs.Kept.{first_frames, HoldFrames};

    ghost Value = { List Item };

    ghost view = { λ f. first_frames f.count f.bytes };

    ghost invariant = { λ f. HoldFrames f.count f.bytes };
}

impl Frames {
    /// The frames that begin the bytes, one after another, so many.
    pub(crate) fn of(count: usize, bytes: Bytes) -> Frames
        requires { HoldFrames count bytes }
        ensures { result ≡ first_frames count bytes }
    {
        Frames { count, bytes }
    }

    pub fn len(&self) -> usize
        ensures { result ≡ length self.now }
    {
        self.count
    }

    /// The frames, to be taken one after another from the first. Their data shares the stream's bytes.
    pub fn left(&self, alloc: Global) -> Result<FramesLeft, AllocError>
        ensures { IfOk result (λ left. left ≡ self.now) }
    {
        Ok(FramesLeft {
            count: self.count,
            reader: FedReader::of(alloc, self.bytes.slice(..)?),
        })
    }
}

/// The frames of a stream that are left. A contract sees it as their list.
#[derive(Drop)]
pub struct FramesLeft {
    count: usize,
    reader: FedReader,
}

impl Model for FramesLeft {
    ghost use Rattle.std.specs.Prelude.{List};
    ghost use Rattle.frame_stream.specs.declared.frame.Frame.{Frame as Item};
    ghost use Rattle.script_text.specs.Kept.{first_frames, HoldFrames};

    ghost Value = { List Item };

    ghost view = { λ r. first_frames r.count r.reader };

    ghost invariant = { λ r. HoldFrames r.count r.reader };
}

impl FramesLeft {
    /// The first of them, which is then no longer left.
    pub fn next(&mut self) -> Result<Option<Frame>, AllocError>
        ensures some { IfOk result (λ next. IfSome next (λ frame. self.old ≡ frame ∷ self.new)) }
        ensures none { IfOk result (λ next. IfNone next (self.old ≡ [])) }
        ensures end { IfOk result (λ next. IfNone next (self.new ≡ [])) }
        ensures err { OnErr result (self.new ≡ self.old) }
    {
        next_of(&mut self.count, &mut self.reader)
    }

    /// The header of the first of them, which is then no longer left.
    pub(crate) fn next_head(&mut self) -> Result<Option<Head>, AllocError>
        ensures some { IfOk result (λ next. IfSome next (λ head.
            map (λ f. f.head) self.old ≡ head ∷ map (λ f. f.head) self.new)) }
        ensures none { IfOk result (λ next. IfNone next (self.old ≡ [])) }
        ensures end { IfOk result (λ next. IfNone next (self.new ≡ [])) }
        ensures err { OnErr result (self.new ≡ self.old) }
    {
        next_head_of(&mut self.count, &mut self.reader)
    }
}

/// The first of so many frames that are left to a reader, which is then gone.
fn next_of(count: &mut usize, reader: &mut FedReader) -> Result<Option<Frame>, AllocError>
    requires { HoldFrames count.old reader.old }
    ensures hold { HoldFrames count.new reader.new }
    ensures some { IfOk result (λ next. IfSome next (λ frame.
        first_frames count.old reader.old ≡ frame ∷ first_frames count.new reader.new)) }
    ensures none { IfOk result (λ next. IfNone next (count.old ≡ 0)) }
    ensures end { IfOk result (λ next. IfNone next (count.new ≡ 0)) }
    ensures err { OnErr result ((count.new ≡ count.old) × (reader.new ≡ reader.old)) }
{
    if *count == 0 {
        return Ok(None);
    }
    match reader.next()? {
        None => Ok(None),
        Some(frame) => {
            *count -= 1;
            Ok(Some(frame))
        }
    }
}

/// The header of the first of so many frames that are left to a reader, which is then gone.
fn next_head_of(count: &mut usize, reader: &mut FedReader) -> Result<Option<Head>, AllocError>
    requires { HoldFrames count.old reader.old }
    ensures hold { HoldFrames count.new reader.new }
    ensures some { IfOk result (λ next. IfSome next (λ head.
        map (λ f. f.head) (first_frames count.old reader.old)
        ≡ head ∷ map (λ f. f.head) (first_frames count.new reader.new))) }
    ensures none { IfOk result (λ next. IfNone next (count.old ≡ 0)) }
    ensures end { IfOk result (λ next. IfNone next (count.new ≡ 0)) }
    ensures err { OnErr result ((count.new ≡ count.old) × (reader.new ≡ reader.old)) }
{
    if *count == 0 {
        return Ok(None);
    }
    match reader.next_head()? {
        None => Ok(None),
        Some(head) => {
            *count -= 1;
            Ok(Some(head))
        }
    }
}
