ghost use Rattle.std.specs.Prelude.{◌≡◌, ◌++◌, ◌∷◌, [], OnOk, OnErr, IfErr};
ghost use Rattle.image_maps.specs.Standing.{IsStanding, text_read, RefusesFrom, Keeps};

use crate::error::MapError;
use crate::line::{BegunLine, Step, next_step};
use crate::span::BlockSpan;

/// Where a reader stands, beside the runs of the whole lines.
#[derive(Clone, Copy, Debug, PartialEq, Eq)]
pub struct Standing {
    /// The first block at which the next run may begin.
    pub least: u64,
    /// The place at which the next line begins.
    pub start: u64,
    /// How many bytes were read.
    pub read: u64,
    /// What was read of the next line.
    pub line: BegunLine,
}

impl Standing {
    /// Nothing was read.
    pub const BLANK: Standing = Standing {
        least: 0,
        start: 0,
        read: 0,
        line: BegunLine::Empty,
    };
}

/// Reads all the bytes, or up to the first that no map has there.
pub fn read_bytes(
    bytes: &[u8],
    block_count: u32,
    at: &mut Standing,
    spans: &mut Vec<BlockSpan>,
) -> Result<(), MapError>
    requires { IsStanding block_count spans.old.items at.old }
    ensures ok { OnOk result (text_read spans.new.items at.new ≡ text_read spans.old.items at.old ++ bytes.now) }
    ensures refused { IfErr result (RefusesFrom (text_read spans.old.items at.old ++ bytes.now) block_count) }
    ensures standing { IsStanding block_count spans.new.items at.new }
    ensures kept { Keeps spans.old.items spans.new.items }
{
    for byte in bytes {
        read_byte(*byte, block_count, at, spans)?;
    }
    Ok(())
}

/// Reads one byte, or nothing.
fn read_byte(
    byte: u8,
    block_count: u32,
    at: &mut Standing,
    spans: &mut Vec<BlockSpan>,
) -> Result<(), MapError>
    requires { IsStanding block_count spans.old.items at.old }
    ensures ok { OnOk result (text_read spans.new.items at.new ≡ text_read spans.old.items at.old ++ byte ∷ []) }
    ensures refused { IfErr result (RefusesFrom (text_read spans.old.items at.old ++ byte ∷ []) block_count) }
    ensures standing { IsStanding block_count spans.new.items at.new }
    ensures kept { Keeps spans.old.items spans.new.items }
{
    match next_step(at.line, byte, at.least, block_count) {
        Step::Grows(line) => {
            at.line = line;
            at.read += 1;
            Ok(())
        }
        Step::Ends(span) => {
            spans.push(span)?;
            *at = Standing {
                least: u64::from(span.first) + u64::from(span.count) + 1,
                start: at.read + 1,
                read: at.read + 1,
                line: BegunLine::Empty,
            };
            Ok(())
        }
        Step::Bad => Err(MapError::BadLine(at.start)),
    }
}
