ghost use Rattle.std.specs.Prelude.{◌≡◌, ◌≢◌, ℕ, ◌+◌, ◌<◌, ◌≤◌, ◌++◌, length, slice_index, flat_map, OnOk, OnErr};
ghost use Rattle.std.specs.Bool.{OnFalse};
ghost use Rattle.image_runs.specs.Printing.{lone_text};

use crate::table::LONE_TEXTS;
use std::alloc::AllocError;

/// How many of the first bytes differ each from the one behind it, as far as 32 bytes.
pub fn lone_bytes(bytes: &[u8]) -> usize
    requires { 0 < length bytes.now }
    ensures within { result < length bytes.now }
    ensures most { result ≤ 32 }
    ensures differ { (k : ℕ) → k < result
        → slice_index bytes.now k ≢ slice_index bytes.now (k + 1) }
    ensures stops { result < 32 → result + 1 < length bytes.now
        → slice_index bytes.now result ≡ slice_index bytes.now (result + 1) }
{
    // Mostly there is no pair, and a fold without a way out tells that at once.
    if let Some(prefix) = bytes.first_chunk::<33>() {
        if !has_pair(prefix) {
            return 32;
        }
    }
    let last = bytes.len().min(33) - 1;
    for i in 0..last {
        if bytes[i] == bytes[i + 1] {
            return i;
        }
    }
    last
}

/// Whether some neighbours are equal.
fn has_pair(bytes: &[u8; 33]) -> bool
    ensures { OnFalse result ((k : ℕ) → k < 32
        → slice_index bytes.now k ≢ slice_index bytes.now (k + 1)) }
{
    let mut found = false;
    for i in 0..32 {
        found |= bytes[i] == bytes[i + 1];
    }
    found
}

/// Appends bytes that stand alone, a comma behind each, by one call.
pub fn append_lone(bytes: &[u8], into: &mut Vec<u8>) -> Result<(), AllocError>
    requires { length bytes.now ≤ 32 }
    ensures ok { OnOk result (into.new.items ≡ into.old.items ++ flat_map lone_text bytes.now) }
    ensures err { OnErr result (into.new.items ≡ into.old.items) }
{
    let mut text = [0; 160];
    for (i, byte) in bytes.iter().enumerate() {
        text[5 * i..5 * i + 5].copy_from_slice(&lone_text(*byte));
    }
    into.extend_from_slice(&text[..5 * bytes.len()])
}

/// A byte that stands alone, and a comma.
pub fn lone_text(byte: u8) -> [u8; 5]
    ensures { result ≡ lone_text byte }
{
    LONE_TEXTS[usize::from(byte)]
}
