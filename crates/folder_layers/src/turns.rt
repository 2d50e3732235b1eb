ghost use Rattle.std.specs.Prelude.{◌≡◌, ◌↔◌, ◌<◌, length, IsTrue, IfOk, MatchOption};
ghost use Rattle.folder_layers.specs.Turns.{done_at, CanCome, NoneCanCome, OneCanCome, IsNextPlace, AllComeInTurn};

use std::alloc::{AllocError, Global};

/// The places of all layers, each next once those before it are there.
pub(crate) fn places_in_turn(
    alloc: Global,
    parents: &[Option<usize>],
) -> Result<Vec<usize>, AllocError>
    requires { OneCanCome parents.now }
    ensures { IfOk result (λ places. AllComeInTurn parents.now places.items) }
{
    let mut done = vec![in alloc; false; parents.len()]?;
    let mut places = Vec::new(alloc);
    while let Some(place) = next_place(parents, &done) {
        places.push(place)?;
        done[place] = true;
    }
    Ok(places)
}

/// The first place whose layer is left and whose parent is there.
fn next_place(parents: &[Option<usize>], done: &[bool]) -> Option<usize>
    ensures { MatchOption result (NoneCanCome parents.now done.now) (IsNextPlace parents.now done.now) }
{
    for place in 0..parents.len() {
        if can_come(parents, done, place) {
            return Some(place);
        }
    }
    None
}

fn can_come(parents: &[Option<usize>], done: &[bool], place: usize) -> bool
    requires { place < length parents.now }
    ensures { IsTrue result ↔ CanCome parents.now done.now place }
{
    if is_done(done, place) {
        return false;
    }
    match parents[place] {
        Some(parent) => is_done(done, parent),
        None => true,
    }
}

fn is_done(done: &[bool], place: usize) -> bool
    ensures { result ≡ done_at done.now place }
{
    match done.get(place) {
        Some(done) => *done,
        None => false,
    }
}
