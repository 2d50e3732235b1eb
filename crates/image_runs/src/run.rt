ghost use Rattle.std.specs.Prelude.{◌≡◌, ◌==◌, ◌+◌, ◌<◌, ◌≤◌, ◌++◌, length, codes, OnOk};
ghost use Rattle.std.specs.List.{prefix_len, list_all};
ghost use Rattle.image_runs.specs.Runs.{run_of, run_text};
ghost use Rattle.image_runs.specs.Printing.{IsPrefixOf};

use crate::lone::lone_text;
use itoa::Buffer;
use std::alloc::AllocError;

/// How many of the first bytes are this byte, up to one that is not.
pub fn run_length(bytes: &[u8], byte: u8) -> usize
    ensures value { result ≡ prefix_len (λ b. b == byte) bytes.now }
    ensures bound { result ≤ length bytes.now }
{
    let few = length_singly(&bytes[..bytes.len().min(8)], byte);
    // Most runs are short.
    if few < 8 {
        return few;
    }
    few + long_run_length(bytes.split_at(few).1, byte)
}

/// The same for a long run: in pieces first, from large to small.
fn long_run_length(bytes: &[u8], byte: u8) -> usize
    ensures value { result ≡ prefix_len (λ b. b == byte) bytes.now }
    ensures bound { result ≤ length bytes.now }
{
    let long = length_in_pieces::<256>(bytes, byte);
    let rest = bytes.split_at(long).1;
    let short = length_in_pieces::<32>(rest, byte);
    long + short + length_singly(rest.split_at(short).1, byte)
}

/// The same, byte by byte.
fn length_singly(bytes: &[u8], byte: u8) -> usize
    ensures value { result ≡ prefix_len (λ b. b == byte) bytes.now }
    ensures bound { result ≤ length bytes.now }
{
    for (i, b) in bytes.iter().enumerate() {
        if *b != byte {
            return i;
        }
    }
    bytes.len()
}

/// How many they are in whole pieces.
fn length_in_pieces<const SIZE: usize>(bytes: &[u8], byte: u8) -> usize
    requires { 0 < SIZE }
    ensures within { result ≤ prefix_len (λ b. b == byte) bytes.now }
    ensures bound { result ≤ length bytes.now }
{
    let mut count = 0;
    while SIZE <= bytes.len() - count && is_all(&bytes[count..count + SIZE], byte) {
        count += SIZE;
    }
    count
}

/// Whether each byte is this byte: a fold without a way out, which becomes vector code.
fn is_all(bytes: &[u8], byte: u8) -> bool
    ensures { result ≡ list_all (λ b. b == byte) bytes.now }
{
    let mut same = true;
    for b in bytes {
        same &= *b == byte;
    }
    same
}

/// Appends a run and a comma. Some of it may stand there where memory runs out.
pub fn append_run(byte: u8, count: usize, into: &mut Vec<u8>) -> Result<(), AllocError>
    ensures ok { OnOk result (into.new.items
        ≡ into.old.items ++ (run_text (run_of byte count) ++ codes ",")) }
    ensures kept { IsPrefixOf into.old.items into.new.items }
{
    let [high, low, ..] = lone_text(byte);
    if count < 10 {
        return into.extend_from_slice(&[high, low, b'*', b'0' + count as u8, b',']);
    }
    let mut buffer = Buffer::new();
    into.extend_from_slice(&[high, low, b'*'])?;
    into.extend_from_slice(buffer.format(count).as_bytes())?;
    into.push(b',')?;
    Ok(())
}
