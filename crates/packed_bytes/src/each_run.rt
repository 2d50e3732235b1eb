ghost use Rattle.std.specs.Prelude.{◌≡◌, ℕ, List, ◌+◌, ◌<◌, ◌≤◌, ◌==◌, ◌∷◌, ◌++◌, length};
ghost use Rattle.std.specs.List.{prefix_len};
ghost use Rattle.std.specs.Iterator.{YieldsFirstBy, item_count};
ghost use Rattle.image_runs.specs.Runs.{run_of, runs};
ghost use Rattle.packed_bytes.specs.Packed.{coded_runs, part, runs_in};
ghost use Rattle.packed_bytes.specs.Place.{is_packed, kept_at, IsPlace};

use crate::Data;
use crate::list::Place;
use crate::parts::first_part;
use image_runs::run_length;
use std::marker::Model;

/// The runs of a list, one after another, each the byte and its count. Contracts see those that are left.
#[derive(Drop)]
pub struct EachRun<'a> {
    store: &'a Data,
    at: usize,
    until: usize,
    packed: bool,
}

impl<'a> Model for EachRun<'a> {
    ghost use Rattle.std.specs.Prelude.{◌≤◌, List, length};
    ghost use Rattle.image_runs.specs.Runs.{ByteRun};
    ghost use Rattle.packed_bytes.specs.Packed.{runs_in, part};

    ghost Value = { List ByteRun };

    ghost view = { λ r. runs_in r.packed (part r.store.now.items r.at r.until) };

    ghost invariant = { λ r. (r.at ≤ r.until) × (r.until ≤ length r.store.now.items) };
}

impl<'a> EachRun<'a> {
    /// The runs of the list that stands there.
    pub(crate) fn of(store: &'a Data, place: Place) -> EachRun<'a>
        requires { IsPlace store.now.items place }
        ensures { result ≡ runs_in (is_packed place) (kept_at store.now.items place) }
    {
        // How much there is, a proof learns here.
        let _length = store.len();
        let at = place.at as usize;
        EachRun {
            store,
            at,
            until: at + place.taken as usize,
            packed: place.taken < place.count,
        }
    }
}

impl<'a> Iterator for EachRun<'a> {
    type Item = (u8, usize);

    ghost next_gives = { YieldsFirstBy (λ p. run_of p.0 p.1) (λ r. r) };

    ghost remaining = { item_count (λ r. r) };

    fn next(&mut self) -> Option<(u8, usize)> {
        let (at, until) = (self.at, self.until);
        if self.packed {
            if until - at < 5 {
                return None;
            }
            self.at = at + 5;
            Some(coded_run(self.store, at))
        } else {
            if at == until {
                return None;
            }
            let run = plain_run(self.store, at, until);
            self.at = at + run.1;
            Some(run)
        }
    }
}

/// The run whose code stands there.
pub(crate) fn coded_run(store: &Data, at: usize) -> (u8, usize)
    requires { at + 5 ≤ length store.now.items }
    ensures { (until : ℕ) → at + 5 ≤ until → until ≤ length store.now.items
        → coded_runs (part store.now.items at until)
        ≡ run_of result.0 result.1 ∷ coded_runs (part store.now.items (at + 5) until) }
{
    // How much there is, a proof learns here.
    let _length = store.len();
    if let Some(code) = store.piece(at).first_chunk() {
        return code_run(code);
    }
    // The code lies over the end of a chunk.
    code_run(&[
        *store.get(at),
        *store.get(at + 1),
        *store.get(at + 2),
        *store.get(at + 3),
        *store.get(at + 4),
    ])
}

/// The run that a code is of.
fn code_run(code: &[u8; 5]) -> (u8, usize)
    ensures { (rest : List ℕ) → coded_runs (code.now ++ rest)
        ≡ run_of result.0 result.1 ∷ coded_runs rest }
{
    let [byte, a, b, c, d] = *code;
    (byte, u32::from_le_bytes([a, b, c, d]) as usize)
}

/// The first run of bytes that are kept as they are.
pub(crate) fn plain_run(store: &Data, at: usize, until: usize) -> (u8, usize)
    requires order { at < until }
    requires within { until ≤ length store.now.items }
    ensures some { 0 < result.1 }
    ensures fits { at + result.1 ≤ until }
    ensures run { runs (part store.now.items at until)
        ≡ run_of result.0 result.1 ∷ runs (part store.now.items (at + result.1) until) }
{
    let byte = *store.get(at);
    let end = run_end(store, at, until, byte);
    (byte, end - at)
}

/// Where this byte ends to stand in a row, up to the end of a list.
fn run_end(store: &Data, at: usize, until: usize, byte: u8) -> usize
    requires order { at ≤ until }
    requires within { until ≤ length store.now.items }
    ensures within { result ≤ until }
    ensures run { result ≡ at + prefix_len (λ b. b == byte) (part store.now.items at until) }
{
    let mut end = at;
    while end < until {
        let bytes = first_part(store, end, until);
        let count = run_length(bytes, byte);
        end += count;
        if count < bytes.len() {
            return end;
        }
    }
    end
}
