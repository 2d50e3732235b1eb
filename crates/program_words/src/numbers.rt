ghost use Rattle.std.specs.Prelude.{◌≡◌};
ghost use Rattle.program_words.specs.Numbers.{number_of, size_of, streams_of, calls_of, replicas_of, sessions_of};

use decimal_text::read_decimal;
use vol_units::VolumeSize;

/// A generated load has no more streams of calls.
const MOST_STREAMS: u64 = 15;

/// And no more calls in each of them.
const MOST_CALLS: u64 = 4096;

/// A served volume has no more replicas.
const MOST_REPLICAS: u64 = 8;

/// And no more sessions.
const MOST_SESSIONS: u64 = 16;

/// The number that a text spells without a sign and without leading zeros.
pub fn number_of(text: &str) -> Option<u64>
    ensures { result ≡ number_of text.now }
{
    read_decimal(text.as_bytes())
}

pub fn size_of(bytes: u64) -> Option<VolumeSize>
    ensures { result ≡ size_of bytes }
{
    VolumeSize::new(bytes).ok()
}

pub fn streams_of(number: u64) -> Option<u8>
    ensures { result ≡ streams_of number }
{
    if 1 <= number && number <= MOST_STREAMS {
        Some(number as u8)
    } else {
        None
    }
}

pub fn calls_of(number: u64) -> Option<u32>
    ensures { result ≡ calls_of number }
{
    if 1 <= number && number <= MOST_CALLS {
        Some(number as u32)
    } else {
        None
    }
}

pub fn replicas_of(number: u64) -> Option<u8>
    ensures { result ≡ replicas_of number }
{
    if 1 <= number && number <= MOST_REPLICAS {
        Some(number as u8)
    } else {
        None
    }
}

pub fn sessions_of(number: u64) -> Option<u8>
    ensures { result ≡ sessions_of number }
{
    if 1 <= number && number <= MOST_SESSIONS {
        Some(number as u8)
    } else {
        None
    }
}
