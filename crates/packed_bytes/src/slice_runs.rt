ghost use Rattle.std.specs.Prelude.{◌≡◌, ◌<◌, ◌≤◌, ◌∷◌, length, drop};
ghost use Rattle.std.specs.Iterator.{YieldsFirstBy, item_count};
ghost use Rattle.image_runs.specs.Runs.{run_of, runs};

use image_runs::run_length;
use std::marker::Model;

/// The runs of bytes that are not packed, one after another. Contracts see those that are left.
#[derive(Drop)]
pub struct SliceRuns<'a> {
    rest: &'a [u8],
}

impl<'a> Model for SliceRuns<'a> {
    ghost use Rattle.std.specs.Prelude.{List};
    ghost use Rattle.image_runs.specs.Runs.{ByteRun, runs};

    ghost Value = { List ByteRun };

    ghost view = { λ r. runs r.rest.now };
}

impl<'a> SliceRuns<'a> {
    pub fn of(bytes: &'a [u8]) -> SliceRuns<'a>
        ensures { result ≡ runs bytes.now }
    {
        SliceRuns { rest: bytes }
    }
}

impl<'a> Iterator for SliceRuns<'a> {
    type Item = (u8, usize);

    ghost next_gives = { YieldsFirstBy (λ p. run_of p.0 p.1) (λ r. r) };

    ghost remaining = { item_count (λ r. r) };

    fn next(&mut self) -> Option<(u8, usize)> {
        let rest = self.rest;
        if rest.is_empty() {
            return None;
        }
        let run = slice_run(rest);
        self.rest = rest.split_at(run.1).1;
        Some(run)
    }
}

/// The first run of some bytes.
fn slice_run(bytes: &[u8]) -> (u8, usize)
    requires { 0 < length bytes.now }
    ensures fits { result.1 ≤ length bytes.now }
    ensures run { runs bytes.now ≡ run_of result.0 result.1 ∷ runs (drop result.1 bytes.now) }
{
    (bytes[0], run_length(bytes, bytes[0]))
}
