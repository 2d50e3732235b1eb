ghost use Rattle.std.specs.Prelude.{◌≡◌, ◌+◌, ◌-◌, ◌*◌, ◌<◌, ◌≤◌, ◌^◌, ◌++◌, length, drop, flat_map};
ghost use Rattle.std.specs.Prelude.{MatchOption, false};
ghost use Rattle.image_runs.specs.Runs.{runs, run_of};
ghost use Rattle.packed_bytes.specs.Packed.{packed, is_shorter, run_code, run_codes, lone_code};
ghost use Rattle.packed_bytes.specs.Place.{place_of, IsPut, IsPutShorter, IsLeft};

use crate::Data;
use crate::count::is_shorter;
use crate::list::Place;
use image_runs::{lone_bytes, run_length};

/// Puts a list behind the others, as runs where these are shorter. It takes no memory.
pub fn put_packed(store: &mut Data, list: &[u8]) -> Place
    requires short { length list.now < 2 ^ 32 }
    requires room { length list.now ≤ store.old.room }
    ensures items { store.new.items ≡ store.old.items ++ packed list.now }
    ensures place { result ≡ place_of store.old.items list.now }
    ensures room { store.new.room + length (packed list.now) ≡ store.old.room }
{
    match put_shorter(store, list) {
        Some(place) => place,
        None => put_plain(store, list),
    }
}

/// Puts the runs of a list behind the others, if they are shorter than the list. It takes no memory.
pub fn put_shorter(store: &mut Data, list: &[u8]) -> Option<Place>
    requires short { length list.now < 2 ^ 32 }
    requires room { length list.now ≤ store.old.room }
    ensures { MatchOption result (IsLeft store.old store.new list.now)
        (IsPutShorter store.old store.new list.now) }
{
    if is_shorter(list) {
        let at = store.len();
        put_runs(store, list);
        Some(place_between(at, store.len(), list))
    } else {
        None
    }
}

/// Puts a list behind the others as it is, whose runs are not shorter. It takes no memory.
pub fn put_plain(store: &mut Data, list: &[u8]) -> Place
    requires short { length list.now < 2 ^ 32 }
    requires room { length list.now ≤ store.old.room }
    requires plain { is_shorter list.now ≡ false }
    ensures { IsPut store.old store.new list.now result }
{
    let at = store.len();
    store.append(list);
    place_between(at, store.len(), list)
}

/// The place of a list that was put between these.
fn place_between(at: usize, until: usize, list: &[u8]) -> Place
    requires order { at ≤ until }
    requires short { length list.now < 2 ^ 32 }
    requires within { until ≤ at + length list.now }
    ensures { result ≡ record { at = at; taken = until - at; count = length list.now } }
{
    Place {
        at: at as u64,
        taken: (until - at) as u32,
        count: list.len() as u32,
    }
}

/// Puts the runs of a list behind the others.
fn put_runs(store: &mut Data, list: &[u8])
    requires short { length list.now < 2 ^ 32 }
    requires room { 5 * length (runs list.now) ≤ store.old.room }
    ensures items { store.new.items ≡ store.old.items ++ run_codes (runs list.now) }
    ensures room { store.new.room + 5 * length (runs list.now) ≡ store.old.room }
{
    let mut rest = list;
    while !rest.is_empty() {
        let count = put_some(store, rest);
        rest = rest.split_at(count).1;
    }
}

/// Puts some of the first runs, each whole, and says how many bytes they are.
fn put_some(store: &mut Data, bytes: &[u8]) -> usize
    requires some { 0 < length bytes.now }
    requires short { length bytes.now < 2 ^ 32 }
    requires room { 5 * length (runs bytes.now) ≤ store.old.room }
    ensures some { 0 < result }
    ensures within { result ≤ length bytes.now }
    ensures items { store.new.items ++ run_codes (runs (drop result bytes.now))
        ≡ store.old.items ++ run_codes (runs bytes.now) }
    ensures room { store.new.room + 5 * length (runs bytes.now)
        ≡ store.old.room + 5 * length (runs (drop result bytes.now)) }
{
    let alone = lone_bytes(bytes);
    if alone > 0 {
        put_lone(store, &bytes[..alone]);
        return alone;
    }
    let count = run_length(bytes, bytes[0]);
    put_run(store, bytes[0], count as u32);
    count
}

/// Puts bytes that stand alone, each as a run, by one call.
fn put_lone(store: &mut Data, bytes: &[u8])
    requires most { length bytes.now ≤ 32 }
    requires room { 5 * length bytes.now ≤ store.old.room }
    ensures items { store.new.items ≡ store.old.items ++ flat_map lone_code bytes.now }
    ensures room { store.new.room + 5 * length bytes.now ≡ store.old.room }
{
    let mut codes = [0; 160];
    for (i, byte) in bytes.iter().enumerate() {
        codes[5 * i..5 * i + 5].copy_from_slice(&[*byte, 1, 0, 0, 0]);
    }
    store.append(&codes[..5 * bytes.len()]);
}

fn put_run(store: &mut Data, byte: u8, count: u32)
    requires { 5 ≤ store.old.room }
    ensures items { store.new.items ≡ store.old.items ++ run_code (run_of byte count) }
    ensures room { store.new.room + 5 ≡ store.old.room }
{
    let [a, b, c, d] = count.to_le_bytes();
    store.append(&[byte, a, b, c, d]);
}
