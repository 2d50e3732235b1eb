//! What a session calls: its writes and reads cross those of the other.

ghost use Rattle.std.specs.Prelude.{IfOk};
ghost use Rattle.client_worker.specs.Asks.{IsShort};
ghost use Rattle.stream_steps.specs.Steps.{IsFrameCall};

use session_serve::Call;
use std::alloc::{AllocError, Global};
use volume_model::Bytes;

/// How many calls each session makes.
pub const CALLS: u64 = 10_000;

/// The size of the volume.
pub const SIZE: u64 = 2_097_152;

/// A session's call of that index: writes and reads in turn, now and then a ping, a range that is not good, and a frame
/// of no kind that there is.
pub fn call_of(alloc: Global, number: u8, index: u64) -> Result<Call, AllocError>
    ensures frame { IfOk result (λ call. IsFrameCall call) }
    ensures short { IfOk result (λ call. IsShort call) }
{
    let place = index.wrapping_mul(2_654_435_761) % (SIZE / 512);
    let offset = (place * 512) as i64;
    match index % 8 {
        0 | 2 | 4 => {
            let bytes = [
                number,
                (index % 256) as u8,
                (index / 256 % 256) as u8,
                7,
                7,
                7,
            ]
            .to_vec(alloc)?;
            let bytes = Bytes::from_vec(bytes)?;
            Ok(Call::Write { offset, bytes })
        }
        1 | 3 => Ok(Call::Read {
            offset,
            length: 600,
        }),
        5 => Ok(Call::Read {
            offset: 0,
            length: 4096,
        }),
        6 => Ok(Call::Ping),
        _ if index % 16 == 7 => Ok(Call::Read {
            offset: SIZE as i64,
            length: 1,
        }),
        _ => Ok(Call::Other(9)),
    }
}
