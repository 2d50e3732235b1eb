ghost use Rattle.std.specs.Prelude.{◌+◌, ◌^◌, ◌<◌, length};
ghost use Rattle.script_text.specs.Refusals.{AnswersStream};

use crate::error::ScriptError;
use crate::fed_reader::FedReader;
use crate::frames::Frames;
use crate::what::What;
use frame_stream::{Bytes, CLOSE};
use std::alloc::Global;

/// The frames of a stream whose bytes begin at a place of the input. There may be so many calls.
/// The frames share the bytes.
pub(crate) fn read_stream(
    alloc: Global,
    bytes: Bytes,
    room: usize,
    place: u64,
) -> Result<Frames, ScriptError>
    requires { place + length bytes < 2 ^ 64 }
    ensures { AnswersStream room place bytes result }
{
    let end = place + bytes.len() as u64;
    let mut left = FedReader::of(alloc, bytes.slice(..)?);
    let mut count = 0;
    while left.len() > 0 {
        let at = end - left.len() as u64;
        let head = match left.next_head()? {
            Some(head) => head,
            None => {
                return Err(ScriptError::Bad {
                    place: at,
                    what: What::Frame,
                });
            }
        };
        if head.kind == CLOSE {
            if left.len() == 0 {
                break;
            }
            return Err(ScriptError::Bad {
                place: end - left.len() as u64,
                what: What::Frame,
            });
        }
        if count >= room {
            return Err(ScriptError::Bad {
                place: at,
                what: What::Calls,
            });
        }
        count += 1;
    }
    Ok(Frames::of(count, bytes))
}
