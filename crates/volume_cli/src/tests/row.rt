//! A row: a run of the top call, and what becomes of it.

use super::runs::end_of;
use super::script::{Asks, script};
use outer_real::OpenGate;
use std::process::Abort;
use std::sync::Wait;
use std::test::Fail;
use std::thread::Threads;

/// The words, the script's replicas with members of its first line behind them, and its streams; then the note of the
/// status, which Done has none of, and what is printed.
pub(crate) struct Row {
    pub(crate) words: &'static [&'static str],
    pub(crate) replicas: &'static str,
    pub(crate) streams: &'static [Asks],
    pub(crate) note: &'static str,
    pub(crate) printed: &'static str,
}

/// By one worker.
pub(crate) const ONE: &[&str] = &["run", "--workers=one"];

/// By a worker for each stream.
const EACH: &[&str] = &["run", "--workers=each"];

/// Runs each row, and compares how it ends and what it prints.
pub(crate) fn hold(
    rt: &(impl AllocGlobal + Abort + Threads + Wait + Sync),
    rows: &[Row],
) -> Result<(), Fail> {
    for row in rows {
        hold_by(rt, row, row.words)?;
        // A stream that is alone is served alike by a worker of its own.
        if row.streams.len() == 1 && row.note.is_empty() {
            hold_by(rt, row, EACH)?;
        }
    }
    Ok(())
}

/// The same of a row by these words.
fn hold_by(
    rt: &(impl AllocGlobal + Abort + Threads + Wait + Sync),
    row: &Row,
    words: &[&str],
) -> Result<(), Fail> {
    let input = script(rt.alloc(), row.replicas, row.streams)?;
    let (status, sink) = end_of(rt, words, input, &OpenGate)?;
    let note = status.to_string(rt.alloc())?;
    assert_eq!(rt; note.as_str(), row.note, "{}", row.printed);
    assert_eq!(rt; sink.bytes(), row.printed.as_bytes());
    Ok(())
}
