ghost use Rattle.std.specs.Prelude.{◌≡◌, ◌≢◌, ℕ, ◌+◌, ◌-◌, ◌*◌, ◌<◌, ◌≤◌, ◌++◌, ⊤, length, take, flat_map};
ghost use Rattle.std.specs.Prelude.{slice_index, OnOk, OnErr, IfOk, MatchOption};
ghost use Rattle.image_runs.specs.Runs.{runs, runs_text};
ghost use Rattle.image_runs.specs.Printing.{with_commas, IsPrefixOf};
ghost use Rattle.packed_bytes.specs.Packed.{coded_runs, lone_code, part};

use crate::Data;
use crate::each_run::{coded_run, plain_run};
use crate::list::PackedList;
use crate::parts::first_part;
use image_runs::{append_lone, append_run, append_runs};
use std::alloc::AllocError;

/// Appends a list as runs, straight from what it is kept as, and `-` for no bytes.
pub fn print_packed(list: &PackedList<'_>, into: &mut Vec<u8>) -> Result<(), AllocError>
    ensures ok { OnOk result (into.new.items ≡ into.old.items ++ runs_text list.now) }
    ensures err { OnErr result (into.new.items ≡ into.old.items) }
{
    if list.len() == 0 {
        into.push(b'-')?;
        return Ok(());
    }
    let start = into.len();
    if let Err(error) = list.append_runs(into) {
        into.truncate(start);
        return Err(error);
    }
    // The comma behind the last run.
    into.pop();
    Ok(())
}

/// Appends the runs whose codes stand there, a comma behind each. Some of them stand there where memory runs out.
pub(crate) fn append_coded(
    store: &Data,
    at: usize,
    until: usize,
    into: &mut Vec<u8>,
) -> Result<(), AllocError>
    requires order { at ≤ until }
    requires within { until ≤ length store.now.items }
    ensures ok { OnOk result (into.new.items
        ≡ into.old.items ++ with_commas (coded_runs (part store.now.items at until))) }
    ensures kept { IsPrefixOf into.old.items into.new.items }
{
    let mut next = at;
    while until - next >= 5 {
        next = append_codes(store, next, until, into)?;
    }
    Ok(())
}

/// Appends the runs of some of the first codes, one at least, and says where the others begin.
fn append_codes(
    store: &Data,
    at: usize,
    until: usize,
    into: &mut Vec<u8>,
) -> Result<usize, AllocError>
    requires some { at + 5 ≤ until }
    requires within { until ≤ length store.now.items }
    ensures some { IfOk result (λ next. (at < next) × (next ≤ until)) }
    ensures ok { IfOk result (λ next.
        into.new.items ++ with_commas (coded_runs (part store.now.items next until))
        ≡ into.old.items ++ with_commas (coded_runs (part store.now.items at until))) }
    ensures kept { IsPrefixOf into.old.items into.new.items }
{
    let (bytes, alone) = lone_coded(first_part(store, at, until));
    if alone > 0 {
        append_lone(&bytes[..alone], into)?;
        return Ok(at + 5 * alone);
    }
    let (byte, count) = coded_run(store, at);
    append_run(byte, count, into)?;
    Ok(at + 5)
}

/// The bytes that the first codes are of, as far as each stands alone and there are 32, and how many these are.
fn lone_coded(codes: &[u8]) -> ([u8; 32], usize)
    ensures most { result.1 ≤ 32 }
    ensures within { 5 * result.1 ≤ length codes.now }
    ensures codes { take (5 * result.1) codes.now ≡ flat_map lone_code (take result.1 result.0) }
{
    let mut bytes = [0; 32];
    for i in 0..32 {
        match first_lone(codes.split_at(5 * i).1) {
            Some(byte) => bytes[i] = byte,
            None => return (bytes, i),
        }
    }
    (bytes, 32)
}

/// The byte that the first code is of, where it stands alone.
fn first_lone(codes: &[u8]) -> Option<u8>
    ensures { MatchOption result ⊤ (λ byte. take 5 codes.now ≡ lone_code byte) }
{
    let [byte, a, b, c, d] = *codes.first_chunk::<5>()?;
    if u32::from_le_bytes([a, b, c, d]) == 1 {
        Some(byte)
    } else {
        None
    }
}

/// Appends the runs of bytes that are kept as they are, a comma behind each. Some of them stand there where memory runs
/// out.
pub(crate) fn append_plain(
    store: &Data,
    at: usize,
    until: usize,
    into: &mut Vec<u8>,
) -> Result<(), AllocError>
    requires order { at ≤ until }
    requires within { until ≤ length store.now.items }
    ensures ok { OnOk result (into.new.items
        ≡ into.old.items ++ with_commas (runs (part store.now.items at until))) }
    ensures kept { IsPrefixOf into.old.items into.new.items }
{
    let mut next = at;
    while next < until {
        next = append_part(store, next, until, into)?;
    }
    Ok(())
}

/// Appends the first of these runs, each whole, as far as the chunk goes, and says where the others begin.
fn append_part(
    store: &Data,
    at: usize,
    until: usize,
    into: &mut Vec<u8>,
) -> Result<usize, AllocError>
    requires order { at < until }
    requires within { until ≤ length store.now.items }
    ensures some { IfOk result (λ next. (at < next) × (next ≤ until)) }
    ensures ok { IfOk result (λ next.
        into.new.items ++ with_commas (runs (part store.now.items next until))
        ≡ into.old.items ++ with_commas (runs (part store.now.items at until))) }
    ensures kept { IsPrefixOf into.old.items into.new.items }
{
    let bytes = first_part(store, at, until);
    if bytes.len() == until - at {
        append_runs(bytes, into)?;
        return Ok(until);
    }
    // The last run of a chunk may go on in the next one.
    let last = last_run_start(bytes);
    append_runs(&bytes[..last], into)?;
    let (byte, count) = plain_run(store, at + last, until);
    append_run(byte, count, into)?;
    Ok(at + last + count)
}

/// Where the last run of some bytes begins.
fn last_run_start(bytes: &[u8]) -> usize
    requires { 0 < length bytes.now }
    ensures within { result < length bytes.now }
    ensures begins { 0 < result → slice_index bytes.now (result - 1) ≢ slice_index bytes.now result }
    ensures last { (k : ℕ) → result ≤ k → k < length bytes.now
        → slice_index bytes.now k ≡ slice_index bytes.now result }
{
    let mut start = bytes.len() - 1;
    while start > 0 && bytes[start - 1] == bytes[start] {
        start -= 1;
    }
    start
}
