ghost use Rattle.std.specs.Prelude.{◌≡◌, [], IfOk, IfErr};
ghost use Rattle.image_maps.specs.Maps.{IsMap, RefusesMap};
ghost use Rattle.image_maps.specs.Reading.{Begins, Feeds, EndsMap};

use crate::error::MapError;
use crate::line::BegunLine;
use crate::span::BlockSpan;
use crate::standing::{Standing, read_bytes};
use std::alloc::Global;
use std::marker::Model;

/// A reader of a map that comes in pieces. It keeps the runs, and no bytes, so that a text without an end is refused
/// at its first bad line.
#[derive(Debug, Drop)]
pub struct MapReader {
    block_count: u32,
    spans: Vec<BlockSpan>,
    at: Standing,
    /// The place of the first bad line, once there was one.
    bad: Option<u64>,
}

impl Model for MapReader {
    ghost use Rattle.image_maps.specs.Reading.{Reading, fed_of};
    ghost use Rattle.image_maps.specs.Standing.{IsStanding, text_read};

    ghost Value = { Reading };

    ghost view = { λ r. record { blocks = r.block_count; fed = fed_of r.bad (text_read r.spans.items r.at) } };

    ghost invariant = { λ r. IsStanding r.block_count r.spans.items r.at };
}

impl MapReader {
    /// A reader of a map of an image of so many blocks.
    pub fn new(alloc: Global, block_count: u32) -> Self
        ensures { result ≡ record { blocks = block_count; fed = Begins [] } }
    {
        MapReader {
            block_count,
            spans: Vec::new(alloc),
            at: Standing::BLANK,
            bad: None,
        }
    }

    /// Reads a piece more. Once a line was bad each piece is answered so.
    pub fn feed(&mut self, piece: &[u8]) -> Result<(), MapError>
        ensures blocks { self.new.blocks ≡ self.old.blocks }
        ensures fed { Feeds self.old.blocks self.old.fed piece.now result self.new.fed }
    {
        if let Some(place) = self.bad {
            return Err(MapError::BadLine(place));
        }
        let count = self.spans.len();
        let at = self.at;
        match read_bytes(piece, self.block_count, &mut self.at, &mut self.spans) {
            Ok(()) => Ok(()),
            Err(MapError::BadLine(place)) => {
                self.bad = Some(place);
                Err(MapError::BadLine(place))
            }
            Err(MapError::NoMemory) => {
                // Nothing of the piece was read, so that it can be fed again.
                self.spans.truncate(count);
                self.at = at;
                Err(MapError::NoMemory)
            }
        }
    }

    /// The runs of all that was fed, where it is a map. It takes no memory.
    pub fn end(self) -> Result<Vec<BlockSpan>, MapError>
        ensures { EndsMap self.blocks self.fed result }
    {
        if let Some(place) = self.bad {
            return Err(MapError::BadLine(place));
        }
        match self.at.line {
            BegunLine::Empty => Ok(self.spans),
            _ => Err(MapError::BadLine(self.at.start)),
        }
    }
}

/// The runs of blocks of a map of an image of so many blocks.
pub fn read_map(alloc: Global, text: &[u8], block_count: u32) -> Result<Vec<BlockSpan>, MapError>
    ensures found { IfOk result (λ spans. IsMap text.now block_count spans.items) }
    ensures refused { IfErr result (RefusesMap text.now block_count) }
{
    let mut reader = MapReader::new(alloc, block_count);
    reader.feed(text)?;
    reader.end()
}
