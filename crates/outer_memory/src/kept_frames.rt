ghost use Rattle.std.specs.Prelude.{◌≡◌, ◌↔◌, ◌++◌, ◌∷◌, ◌-◌, [], length, IfOk, IsTrue};
ghost use Rattle.outer_memory.specs.Frames.{FrameRoom, FitsFrame};

use std::alloc::{AllocError, Global};
use std::marker::Model;

/// A frame that was kept.
#[derive(Debug, Drop)]
pub struct Frame {
    bytes: Vec<u8>,
}

impl Model for Frame {
    ghost use Rattle.std.specs.Prelude.{List, ℕ};

    ghost Value = { List ℕ };

    ghost view = { λ f. f.bytes.items };
}

impl Frame {
    /// Its bytes.
    pub fn bytes(&self) -> &[u8]
        ensures { result.now ≡ self.now }
    {
        self.bytes.as_slice()
    }
}

/// Frames that were kept, in room that was made before.
#[derive(Debug, Drop)]
pub struct KeptFrames {
    frames: Vec<Frame>,
    spare: Vec<Vec<u8>>,
    longest: usize,
}

impl Model for KeptFrames {
    ghost use Rattle.std.specs.Prelude.{◌≡◌, ◌+◌, ◌≤◌, [], All, vec_len, vec_capacity};
    ghost use Rattle.outer_memory.specs.Frames.{FrameRoom};

    ghost Value = { FrameRoom };

    ghost view = { λ k. record { frames = k.frames.items; spare = vec_len k.spare; longest = k.longest } };

    ghost invariant = { λ k. (vec_len k.frames + vec_len k.spare ≤ vec_capacity k.frames)
        × All (λ room. (room.items ≡ []) × (k.longest ≤ vec_capacity room)) k.spare.items };
}

impl KeptFrames {
    /// Room for so many frames, each of at most `longest` bytes.
    pub fn new(alloc: Global, room: usize, longest: usize) -> Result<Self, AllocError>
        ensures { IfOk result (λ kept. kept ≡ record { frames = []; spare = room; longest = longest }) }
    {
        let frames = Vec::with_capacity(alloc, room)?;
        let mut spare = Vec::with_capacity(alloc, room)?;
        for _ in 0..room {
            spare.push(Vec::with_capacity(alloc, longest)?)?;
        }
        Ok(KeptFrames {
            frames,
            spare,
            longest,
        })
    }

    /// Whether there is room for a frame of so many bytes.
    pub fn has_room(&self, length: usize) -> bool
        ensures { IsTrue result ↔ FitsFrame self.now length }
    {
        !self.spare.is_empty() && length <= self.longest
    }

    /// Keeps a frame. It takes no memory.
    pub fn push(&mut self, frame: &[u8])
        requires { FitsFrame self.old (length frame.now) }
        ensures { self.new ≡ record self.old {
          frames = self.old.frames ++ frame.now ∷ [];
          spare = self.old.spare - 1;
        } }
    {
        if let Some(mut bytes) = self.spare.pop() {
            bytes.extend_from_slice(frame).unwrap();
            self.frames.push(Frame { bytes }).unwrap();
        }
    }

    /// The frames, in the order in which they came.
    pub fn frames(&self) -> &[Frame]
        ensures { result.now ≡ self.now.frames }
    {
        self.frames.as_slice()
    }
}
