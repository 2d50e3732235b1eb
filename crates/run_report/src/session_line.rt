ghost use Rattle.std.specs.Prelude.{◌≡◌, ◌++◌, ◌∷◌, [], OnOk, OnErr, take, length};
ghost use Rattle.std.specs.Fmt.{decimal};
ghost use Rattle.run_report.specs.Lines.{word};
ghost use Rattle.run_report.specs.Sessions.{session_end_text, session_line};

use crate::gathered::{DIGITS, NUMBER, put_bytes, put_decimal, put_number};
use crate::words::{append_number, whole_or_none};
use std::alloc::AllocError;

/// Room for the two counts of a session, and the end of its line.
const COUNTS_ROOM: usize = NUMBER + DIGITS + 1;

/// How a session ended.
#[derive(Clone, Copy, Debug, PartialEq, Eq)]
pub enum SessionEnd {
    /// Its client sent a Close.
    Closed,
    /// Its input ended between two frames.
    Ended,
    /// At this place, counted modulo 2^64, no whole frame stood, and yet the input went on.
    Frame(u64),
    /// It had made all calls that a session may make, and one more came.
    Full,
    /// Its source failed.
    ReadFault,
    /// Its sink failed.
    WriteFault,
}

/// A session that has ended: how, the number of its calls, and how long the journal was when it looked last.
#[derive(Clone, Copy, Debug, PartialEq, Eq)]
pub struct EndedSession {
    pub end: SessionEnd,
    pub calls: u64,
    pub seen: u64,
}

/// Appends the line of a session that has ended.
pub fn print_session(
    session: u8,
    ended: &EndedSession,
    into: &mut Vec<u8>,
) -> Result<(), AllocError>
    ensures ok { OnOk result (into.new.items ≡ into.old.items ++ session_line session ended.now) }
    ensures err { OnErr result (into.new.items ≡ into.old.items) }
{
    let start = into.len();
    let printed = append_session(session, ended, into);
    whole_or_none(printed, start, into)
}

fn append_session(session: u8, ended: &EndedSession, into: &mut Vec<u8>) -> Result<(), AllocError>
    ensures ok { OnOk result (into.new.items ≡ into.old.items ++ session_line session ended.now) }
    ensures kept { take (length into.old.items) into.new.items ≡ into.old.items }
{
    into.extend_from_slice(b"session ")?;
    append_number(u64::from(session), into)?;
    append_end(ended.end, into)?;
    append_counts(ended.calls, ended.seen, into)
}

/// Appends how a session ended, and a space.
fn append_end(end: SessionEnd, into: &mut Vec<u8>) -> Result<(), AllocError>
    ensures ok { OnOk result (into.new.items ≡ into.old.items ++ word (session_end_text end)) }
    ensures kept { take (length into.old.items) into.new.items ≡ into.old.items }
{
    match end {
        SessionEnd::Closed => into.extend_from_slice(b"closed "),
        SessionEnd::Ended => into.extend_from_slice(b"ended "),
        SessionEnd::Frame(place) => {
            into.extend_from_slice(b"frame ")?;
            append_number(place, into)
        }
        SessionEnd::Full => into.extend_from_slice(b"full "),
        SessionEnd::ReadFault => into.extend_from_slice(b"read fault "),
        SessionEnd::WriteFault => into.extend_from_slice(b"write fault "),
    }
}

/// Appends the two counts of a session, and ends its line.
fn append_counts(calls: u64, seen: u64, into: &mut Vec<u8>) -> Result<(), AllocError>
    ensures ok { OnOk result (into.new.items
        ≡ into.old.items ++ (word (decimal calls) ++ decimal seen ++ 10 ∷ [])) }
    ensures kept { take (length into.old.items) into.new.items ≡ into.old.items }
{
    let mut text = [0; COUNTS_ROOM];
    let end = put_bytes(b"\n", &mut text, COUNTS_ROOM);
    let seen = put_decimal(seen, &mut text, end);
    let start = put_number(calls, &mut text, seen);
    into.extend_from_slice(&text[start..])
}
