ghost use Rattle.std.specs.Prelude.{◌≡◌, ◌++◌, ◌∷◌, OnOk, OnErr, take, length, flat_map};
ghost use Rattle.std.specs.Fmt.{decimal};
ghost use Rattle.frame_stream.specs.Replies.{error_text};
ghost use Rattle.packed_entries.specs.View.{reply_seen};
ghost use Rattle.run_report.specs.Lines.{word, replica_text, mode_text, modes_text};

use crate::gathered::{NUMBER, put_number};
use itoa::Buffer;
use packed_entries::ReplyView;
use std::alloc::AllocError;
use volume_model::Mode;

/// What the printing of a line came to, which began at `start`. Where it failed, the part that was printed is taken
/// back.
pub fn whole_or_none(
    printed: Result<(), AllocError>,
    start: usize,
    into: &mut Vec<u8>,
) -> Result<(), AllocError>
    ensures same { result ≡ printed }
    ensures ok { OnOk printed (into.new.items ≡ into.old.items) }
    ensures err { OnErr printed (into.new.items ≡ take start into.old.items) }
{
    if printed.is_err() {
        // A part of a line would be read as a line.
        into.truncate(start);
    }
    printed
}

/// Appends a number.
pub fn append_decimal(n: u64, into: &mut Vec<u8>) -> Result<(), AllocError>
    ensures ok { OnOk result (into.new.items ≡ into.old.items ++ decimal n) }
    ensures kept { take (length into.old.items) into.new.items ≡ into.old.items }
{
    // Most numbers have one digit.
    if n < 10 {
        into.push(b'0' + n as u8)?;
        return Ok(());
    }
    let mut buffer = Buffer::new();
    into.extend_from_slice(buffer.format(n).as_bytes())
}

/// Appends a number and a space.
pub fn append_number(n: u64, into: &mut Vec<u8>) -> Result<(), AllocError>
    ensures ok { OnOk result (into.new.items ≡ into.old.items ++ word (decimal n)) }
    ensures kept { take (length into.old.items) into.new.items ≡ into.old.items }
{
    let mut text = [0; NUMBER];
    let start = put_number(n, &mut text, NUMBER);
    into.extend_from_slice(&text[start..])
}

/// Appends a replica's number behind its letter.
pub fn append_replica(r: u8, into: &mut Vec<u8>) -> Result<(), AllocError>
    ensures ok { OnOk result (into.new.items ≡ into.old.items ++ replica_text r) }
    ensures kept { take (length into.old.items) into.new.items ≡ into.old.items }
{
    into.push(b'r')?;
    append_decimal(u64::from(r), into)
}

/// Appends a replica and a space.
pub fn append_replica_word(r: u8, into: &mut Vec<u8>) -> Result<(), AllocError>
    ensures ok { OnOk result (into.new.items ≡ into.old.items ++ word (replica_text r)) }
    ensures kept { take (length into.old.items) into.new.items ≡ into.old.items }
{
    append_replica(r, into)?;
    into.push(b' ')?;
    Ok(())
}

/// Appends modes, parted by commas.
pub fn append_modes(modes: &[Mode], into: &mut Vec<u8>) -> Result<(), AllocError>
    ensures ok { OnOk result (into.new.items ≡ into.old.items ++ modes_text modes.now) }
    ensures kept { take (length into.old.items) into.new.items ≡ into.old.items }
{
    let [first, rest @ ..] = modes else {
        return Ok(());
    };
    into.extend_from_slice(text_of_mode(*first).as_bytes())?;
    append_more_modes(rest, into)
}

/// Appends modes that stand behind another.
fn append_more_modes(modes: &[Mode], into: &mut Vec<u8>) -> Result<(), AllocError>
    ensures ok { OnOk result (into.new.items ≡ into.old.items ++ flat_map (λ m. 44 ∷ mode_text m) modes.now) }
    ensures kept { take (length into.old.items) into.new.items ≡ into.old.items }
{
    for mode in modes {
        append_one_more(*mode, into)?;
    }
    Ok(())
}

fn append_one_more(mode: Mode, into: &mut Vec<u8>) -> Result<(), AllocError>
    ensures ok { OnOk result (into.new.items ≡ into.old.items ++ 44 ∷ mode_text mode) }
    ensures kept { take (length into.old.items) into.new.items ≡ into.old.items }
{
    into.push(b',')?;
    into.extend_from_slice(text_of_mode(mode).as_bytes())
}

/// The word of a mode.
pub fn text_of_mode(mode: Mode) -> &'static str
    ensures { result.now ≡ mode_text mode }
{
    match mode {
        Mode::Rw => "RW",
        Mode::Wo => "WO",
        Mode::Err => "ERR",
    }
}

/// Appends why a call was not done, and nothing where it was.
pub fn append_error(reply: &ReplyView<'_>, into: &mut Vec<u8>) -> Result<(), AllocError>
    ensures ok { OnOk result (into.new.items ≡ into.old.items ++ error_text (reply_seen reply.now)) }
    ensures kept { take (length into.old.items) into.new.items ≡ into.old.items }
{
    match reply {
        ReplyView::Done | ReplyView::Read(_) | ReplyView::Status { .. } => Ok(()),
        ReplyView::Refused(why) => into.extend_from_slice(why.text().as_bytes()),
        ReplyView::Aborted(place) => {
            into.extend_from_slice(b"aborted ")?;
            append_decimal(*place, into)
        }
    }
}
