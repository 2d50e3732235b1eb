//! How many runs a list has, counted in pieces by vector code, and no further than it matters.

ghost use Rattle.std.specs.Prelude.{◌≡◌, ◌+◌, ◌<◌, ◌≤◌, ◌^◌, length, take};
ghost use Rattle.image_runs.specs.Runs.{runs};
ghost use Rattle.packed_bytes.specs.Packed.{is_shorter};

use image_runs::run_length;

/// Whether the runs of a list are shorter than the list.
pub(crate) fn is_shorter(list: &[u8]) -> bool
    requires { length list.now < 2 ^ 32 }
    ensures { result ≡ is_shorter list.now }
{
    let mut rest = list;
    let mut count = 0;
    while let Some(piece) = rest.first_chunk() {
        let (passed, behind) = pass_some(rest, piece);
        count += passed;
        rest = behind;
        // Mostly a list whose runs are not shorter shows it early.
        if list.len() <= 5 * count {
            return false;
        }
    }
    5 * (count + run_count(rest)) < list.len()
}

/// Passes by some of the runs of a list that begins with this piece: how many they are, and what is left.
fn pass_some<'a>(list: &'a [u8], piece: &[u8; 129]) -> (usize, &'a [u8])
    requires { piece.now ≡ take 129 list.now }
    ensures count { result.0 + length (runs result.1.now) ≡ length (runs list.now) }
    ensures few { result.0 + length result.1.now ≤ length list.now }
    ensures less { length result.1.now < length list.now }
{
    let changes = changes_in(piece);
    if changes == 0 {
        // A long run is passed by faster than its bytes are counted.
        return (1, list.split_at(run_length(list, list[0])).1);
    }
    // The last byte of the piece counts as the first one of what is left.
    (usize::from(changes), list.split_at(128).1)
}

/// How often a byte of a piece is another than the one before it: a fold without a way out, which becomes vector code.
fn changes_in(piece: &[u8; 129]) -> u8
    ensures value { result + 1 ≡ length (runs piece.now) }
    ensures most { result ≤ 128 }
{
    let mut changes = 0;
    for i in 0..128 {
        changes += u8::from(piece[i + 1] != piece[i]);
    }
    changes
}

/// How many runs there are, counted byte by byte.
fn run_count(bytes: &[u8]) -> usize
    ensures value { result ≡ length (runs bytes.now) }
    ensures most { result ≤ length bytes.now }
{
    if bytes.is_empty() {
        return 0;
    }
    let mut count = 1;
    for i in 1..bytes.len() {
        count += usize::from(bytes[i] != bytes[i - 1]);
    }
    count
}
