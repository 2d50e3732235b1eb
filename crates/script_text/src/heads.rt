ghost use Rattle.std.specs.Prelude.{◌≡◌, ◌∷◌, ◌↔◌, [], map, IsTrue, IfOk, IfSome, IfNone, OnErr};

use crate::frames::{Frames, FramesLeft};
use frame_stream::Bytes;
use frame_wire::Head;
use std::alloc::{AllocError, Global};
use std::marker::Model;

/// The headers of a stream's frames, which are read from the stream's bytes as they are wanted. A contract sees it as
/// their list.
#[derive(Debug, Drop)]
pub struct Heads {
    frames: Frames,
}

impl Model for Heads {
    ghost use Rattle.std.specs.Prelude.{List, map};
    ghost use Rattle.frame_wire.specs.declared.head.Head.{Head};

    ghost Value = { List Head };

    ghost view = { λ h. map (λ f. f.head) h.frames };
}

impl Heads {
    pub fn of(frames: Frames) -> Heads
        ensures { result ≡ map (λ f. f.head) frames }
    {
        Heads { frames }
    }

    /// No header, as of a control stream.
    pub fn none() -> Heads
        ensures { result ≡ [] }
    {
        Heads {
            frames: Frames::of(0, Bytes::new()),
        }
    }

    pub fn is_empty(&self) -> bool
        ensures { IsTrue result ↔ (self.now ≡ []) }
    {
        self.frames.len() == 0
    }

    /// The headers, to be taken one after another from the first.
    pub fn left(&self, alloc: Global) -> Result<HeadsLeft, AllocError>
        ensures { IfOk result (λ left. left ≡ self.now) }
    {
        Ok(HeadsLeft {
            frames: self.frames.left(alloc)?,
        })
    }
}

/// The headers of a stream's frames that are left. A contract sees it as their list.
#[derive(Drop)]
pub struct HeadsLeft {
    frames: FramesLeft,
}

impl Model for HeadsLeft {
    ghost use Rattle.std.specs.Prelude.{List, map};
    ghost use Rattle.frame_wire.specs.declared.head.Head.{Head};

    ghost Value = { List Head };

    ghost view = { λ h. map (λ f. f.head) h.frames };
}

impl HeadsLeft {
    /// The first of them, which is then no longer left.
    pub fn next(&mut self) -> Result<Option<Head>, AllocError>
        ensures some { IfOk result (λ next. IfSome next (λ head. self.old ≡ head ∷ self.new)) }
        ensures none { IfOk result (λ next. IfNone next (self.old ≡ [])) }
        ensures end { IfOk result (λ next. IfNone next (self.new ≡ [])) }
        ensures err { OnErr result (self.new ≡ self.old) }
    {
        self.frames.next_head()
    }
}
