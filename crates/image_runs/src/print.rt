ghost use Rattle.std.specs.Prelude.{◌≡◌, ◌+◌, ◌<◌, ◌≤◌, ◌++◌, length, drop, IfOk, OnOk, OnErr};
ghost use Rattle.image_runs.specs.Runs.{runs, runs_text};
ghost use Rattle.image_runs.specs.Printing.{with_commas, IsPrefixOf};

use crate::lone::{append_lone, lone_bytes};
use crate::run::{append_run, run_length};
use std::alloc::AllocError;

/// Appends bytes as runs: `61*2,00*1` for `aa\0`, and `-` for no bytes.
pub fn print_runs(bytes: &[u8], into: &mut Vec<u8>) -> Result<(), AllocError>
    ensures ok { OnOk result (into.new.items ≡ into.old.items ++ runs_text bytes.now) }
    ensures err { OnErr result (into.new.items ≡ into.old.items) }
{
    if bytes.is_empty() {
        into.push(b'-')?;
        return Ok(());
    }
    let start = into.len();
    if let Err(error) = append_runs(bytes, into) {
        into.truncate(start);
        return Err(error);
    }
    // The comma behind the last run.
    into.pop();
    Ok(())
}

/// Appends all runs, a comma behind each. Some of them stand there where memory runs out.
pub fn append_runs(bytes: &[u8], into: &mut Vec<u8>) -> Result<(), AllocError>
    ensures ok { OnOk result (into.new.items ≡ into.old.items ++ with_commas (runs bytes.now)) }
    ensures kept { IsPrefixOf into.old.items into.new.items }
{
    let mut rest = bytes;
    while !rest.is_empty() {
        let count = append_some(rest, into)?;
        rest = rest.split_at(count).1;
    }
    Ok(())
}

/// Appends some of the first runs, each whole, a comma behind each, and says how many bytes they are.
fn append_some(bytes: &[u8], into: &mut Vec<u8>) -> Result<usize, AllocError>
    requires { 0 < length bytes.now }
    ensures some { IfOk result (λ n. (0 < n) × (n ≤ length bytes.now)) }
    ensures ok { IfOk result (λ n. into.new.items ++ with_commas (runs (drop n bytes.now))
        ≡ into.old.items ++ with_commas (runs bytes.now)) }
    ensures kept { IsPrefixOf into.old.items into.new.items }
{
    let alone = lone_bytes(bytes);
    if alone > 0 {
        append_lone(&bytes[..alone], into)?;
        return Ok(alone);
    }
    let count = run_length(bytes, bytes[0]);
    append_run(bytes[0], count, into)?;
    Ok(count)
}
