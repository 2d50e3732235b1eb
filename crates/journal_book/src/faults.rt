//! What the fault marks of a run tell.

ghost use Rattle.std.specs.Prelude.{◌≡◌, ◌+◌, ◌<◌, ◌≤◌, ◌∷◌, [], ℕ, if◌then◌else◌, position, vec_len, vec_capacity};
ghost use Rattle.volume_model.specs.Faults.{last_in, fault_counts};
ghost use Rattle.journal_book.specs.Lines.{is_line, count_in};

use volume_model::{Entry, Mark};

/// The count that the last fault mark of a stream's line to a replica tells.
#[derive(Clone, Copy, Debug)]
pub(crate) struct LastCount {
    pub(crate) stream: u8,
    pub(crate) replica: u8,
    pub(crate) count: u64,
}

/// The count of the line, and 0 where it has shown no fault.
pub(crate) fn count_in(lines: &[LastCount], stream: u8, replica: u8) -> u64
    ensures { result ≡ count_in stream replica lines.now }
{
    match place_of(lines, stream, replica) {
        Some(place) => lines[place].count,
        None => 0,
    }
}

/// Makes the counts what they are after the entry. It takes no memory.
pub(crate) fn follow_faults(lines: &mut Vec<LastCount>, entry: &Entry)
    requires { vec_len lines.old < vec_capacity lines.old }
    ensures counts { (s r : ℕ) → count_in s r lines.new.items
        ≡ last_in (count_in s r lines.old.items) (fault_counts s r (entry.now ∷ [])) }
    ensures one_more { vec_len lines.new ≤ vec_len lines.old + 1 }
    ensures capacity { vec_capacity lines.old ≤ vec_capacity lines.new }
{
    if let Entry::Mark(
        Mark::Fault {
            stream,
            replica,
            count,
        },
    ) = entry
    {
        let last = LastCount {
            stream: *stream,
            replica: *replica,
            count: *count,
        };
        put_last(lines, last);
    }
}

/// The line has this count from now on.
fn put_last(lines: &mut Vec<LastCount>, last: LastCount)
    requires { vec_len lines.old < vec_capacity lines.old }
    ensures counts { (s r : ℕ) → count_in s r lines.new.items
        ≡ (if is_line s r last then last.count else count_in s r lines.old.items) }
    ensures one_more { vec_len lines.new ≤ vec_len lines.old + 1 }
    ensures capacity { vec_capacity lines.old ≤ vec_capacity lines.new }
{
    match place_of(lines, last.stream, last.replica) {
        Some(place) => lines[place].count = last.count,
        None => lines.push(last).unwrap(),
    }
}

fn place_of(lines: &[LastCount], stream: u8, replica: u8) -> Option<usize>
    ensures { result ≡ position (is_line stream replica) lines.now }
{
    lines.iter().position(|line| is_line(line, stream, replica))
}

fn is_line(line: &LastCount, stream: u8, replica: u8) -> bool
    ensures { result ≡ is_line stream replica line.now }
{
    line.stream == stream && line.replica == replica
}
