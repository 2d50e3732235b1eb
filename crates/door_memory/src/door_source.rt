ghost use Rattle.std.specs.Prelude.{◌≡◌, Some};
ghost use Rattle.std.specs.Io.{ReadsAtMost};
ghost use Rattle.std.specs.Io.KnownBytes.{ReadConsumes};
ghost use Rattle.outer_traits.specs.Causes.{HasCause};

use crate::taken_back::Blank;
use door_traits::{Failed, Source};
use outer_memory::MemorySource;

/// The source of a session that is in, with the memory in which it is kept when it is taken back.
#[derive(Debug, Drop)]
pub struct DoorSource {
    pub source: MemorySource,
    pub(crate) blank: Blank,
}

impl Source for DoorSource {
    ghost left = { λ s. Some s.source.source.bytes };

    ghost faults = { λ s. s.source.faults };

    fn read(&mut self, into: &mut [u8]) -> Result<usize, Failed> {
        self.source.read(into)
    }
}
