ghost use Rattle.std.specs.Prelude.{◌≡◌, ◌++◌, IfOk, OnOk};
ghost use Rattle.image_maps.specs.Maps.{line, map_text};

use crate::span::BlockSpan;
use itoa::Buffer;
use std::alloc::{AllocError, Global};

/// The map of these runs.
pub fn write_map(alloc: Global, spans: &[BlockSpan]) -> Result<Vec<u8>, AllocError>
    ensures { IfOk result (λ text. text.items ≡ map_text spans.now) }
{
    let mut text = Vec::new(alloc);
    for span in spans {
        append_line(*span, &mut text)?;
    }
    Ok(text)
}

fn append_line(span: BlockSpan, into: &mut Vec<u8>) -> Result<(), AllocError>
    ensures { OnOk result (into.new.items ≡ into.old.items ++ line span) }
{
    let mut buffer = Buffer::new();
    into.extend_from_slice(buffer.format(span.first).as_bytes())?;
    into.push(b' ')?;
    into.extend_from_slice(buffer.format(span.count).as_bytes())?;
    into.push(b'\n')?;
    Ok(())
}
