//! A small state at a desk. `desk_trial STREAMS CALLS` has a thread for each stream make that many calls; with LOOKERS behind
//! it, so many threads look meanwhile, and other ways to look are shown. `desk_trial hold LOOKS` and `desk_trial wait LOOKS`
//! look beside a thread that has the state, or waits.
#![tactic(auto)]

ghost use Rattle.std.specs.Prelude.{◌≡◌, ℕ, ◌≤◌, [], IfOk};
ghost use Rattle.desk_trial.specs.Books.{notes_in};

mod book;
mod each;
mod looks;
mod workers;

use book::Book;
use each::serve_each;
use looks::{Beside, look_beside, told_at_once, told_of_all};
use std::alloc::{AllocError, Global};
use std::env;
use std::process::ExitCode;
use std::sync::Wait;
use std::thread::Threads;

/// A thread for each stream makes calls of the values 0, 1, 2, .., and as many. So many threads more look as often.
fn trial<R: Threads + Wait + Sync>(
    rt: &R,
    alloc: Global,
    streams: u64,
    calls: u64,
    lookers: u64,
) -> Result<Book, AllocError>
    ensures { IfOk result (λ b. (n : ℕ) → streams ≤ n → notes_in n b ≡ []) }
{
    let mut lists = Vec::new(alloc);
    for _ in 0..streams {
        lists.push(values(alloc, calls)?)?;
    }
    for _ in 0..lookers {
        lists.push(Vec::new(alloc))?;
    }
    let book = Book::with_streams(alloc, lists.len() as u64)?;
    if lists.is_empty() {
        return Ok(book);
    }
    serve_each(rt, alloc, book, lists, calls)
}

// The values of so many calls.
fn values(alloc: Global, calls: u64) -> Result<Vec<u64>, AllocError> {
    let mut values = Vec::new(alloc);
    for value in 0..calls {
        values.push(value)?;
    }
    Ok(values)
}

// Of two looks a call, how many told of just the calls that were made; and of how many the first seat was told in the
// end. One thread looks as often beside another that has the state.
fn show_looks<R: Threads + Wait + Sync>(
    rt: &R,
    alloc: Global,
    calls: u64,
) -> Result<(u64, u64), AllocError> {
    let at_once = told_at_once(rt, alloc, calls)?;
    let values = values(alloc, calls)?;
    let of_all = told_of_all(rt, alloc, values.as_slice())?;
    look_beside(rt, alloc, calls, Beside::Holds)?;
    Ok((at_once, of_all))
}

// The number that the text is, and 0 where it is none.
fn number(text: Option<String>) -> u64 {
    match text {
        Some(text) => text.parse::<u64>().unwrap_or(0),
        None => 0,
    }
}

// What another does while one looks, where the word asks for looks alone.
fn beside_of(word: &Option<String>) -> Option<Beside> {
    match word {
        Some(word) if word.as_str() == "hold" => Some(Beside::Holds),
        Some(word) if word.as_str() == "wait" => Some(Beside::Waits),
        _ => None,
    }
}

fn main(rt: HostRuntime) -> ExitCode {
    let Ok(mut args) = env::args(&rt) else {
        return ExitCode::FAILURE;
    };
    args.next();
    let first = args.next();
    let count = number(args.next());
    let third = args.next();
    if let Some(beside) = beside_of(&first) {
        return match look_beside(&rt, rt.alloc(), count, beside) {
            Ok(()) if println!(rt; "{} looks", count).is_ok() => ExitCode::SUCCESS,
            _ => ExitCode::FAILURE,
        };
    }
    let shows = third.is_some();
    match trial(&rt, rt.alloc(), number(first), count, number(third)) {
        Ok(book) if println!(rt; "{} notes", book.notes.len()).is_ok() => {}
        _ => return ExitCode::FAILURE,
    }
    if !shows {
        return ExitCode::SUCCESS;
    }
    match show_looks(&rt, rt.alloc(), count) {
        Ok(told) if println!(rt; "{} told at once, {} told in the end", told.0, told.1).is_ok() => {
            ExitCode::SUCCESS
        }
        _ => ExitCode::FAILURE,
    }
}
