ghost use Rattle.std.specs.Prelude.{◌≡◌, ◌++◌, OnOk, take, length};
ghost use Rattle.run_report.specs.Lines.{mark_line, mark_text, part_text};

use crate::words::{append_decimal, append_number, append_replica, append_replica_word};
use std::alloc::AllocError;
use volume_model::{FoldOrDrop, LayerName, Mark};

/// Appends the line of a mark at a place of the journal.
pub fn append_mark(place: u64, mark: &Mark, into: &mut Vec<u8>) -> Result<(), AllocError>
    ensures ok { OnOk result (into.new.items ≡ into.old.items ++ mark_line place mark.now) }
    ensures kept { take (length into.old.items) into.new.items ≡ into.old.items }
{
    append_number(place, into)?;
    into.extend_from_slice(b"mark ")?;
    append_told(mark, into)?;
    into.push(b'\n')?;
    Ok(())
}

/// Appends what a mark tells.
fn append_told(mark: &Mark, into: &mut Vec<u8>) -> Result<(), AllocError>
    ensures ok { OnOk result (into.new.items ≡ into.old.items ++ mark_text mark.now) }
    ensures kept { take (length into.old.items) into.new.items ≡ into.old.items }
{
    match mark {
        Mark::Purged(part) => append_part(part, into),
        Mark::Fault {
            stream,
            replica,
            count,
        } => append_fault(*stream, *replica, *count, into),
        Mark::Failed(replica) => {
            into.extend_from_slice(b"failed ")?;
            append_replica(*replica, into)
        }
        Mark::Added {
            replica,
            source,
            name,
        } => append_added(*replica, *source, name, into),
        Mark::Promoted(replica) => {
            into.extend_from_slice(b"promoted ")?;
            append_replica(*replica, into)
        }
        Mark::Aborted(replica) => {
            into.extend_from_slice(b"aborted ")?;
            append_replica(*replica, into)
        }
    }
}

/// Appends how a layer went.
fn append_part(part: &FoldOrDrop, into: &mut Vec<u8>) -> Result<(), AllocError>
    ensures ok { OnOk result (into.new.items ≡ into.old.items ++ part_text part.now) }
    ensures kept { take (length into.old.items) into.new.items ≡ into.old.items }
{
    match part {
        FoldOrDrop::Fold { parent, child } => {
            into.extend_from_slice(b"folded ")?;
            into.extend_from_slice(parent.as_bytes())?;
            into.push(b' ')?;
            into.extend_from_slice(child.as_bytes())
        }
        FoldOrDrop::Drop(name) => {
            into.extend_from_slice(b"dropped ")?;
            into.extend_from_slice(name.as_bytes())
        }
    }
}

fn append_fault(stream: u8, replica: u8, count: u64, into: &mut Vec<u8>) -> Result<(), AllocError>
    ensures ok { OnOk result (into.new.items ≡ into.old.items ++ mark_text (Mark.Fault stream replica count)) }
    ensures kept { take (length into.old.items) into.new.items ≡ into.old.items }
{
    into.extend_from_slice(b"fault ")?;
    append_number(u64::from(stream), into)?;
    append_replica_word(replica, into)?;
    append_decimal(count, into)
}

fn append_added(
    replica: u8,
    source: u8,
    name: &LayerName,
    into: &mut Vec<u8>,
) -> Result<(), AllocError>
    ensures ok { OnOk result (into.new.items ≡ into.old.items ++ mark_text (Mark.Added replica source name.now)) }
    ensures kept { take (length into.old.items) into.new.items ≡ into.old.items }
{
    into.extend_from_slice(b"added ")?;
    append_replica_word(replica, into)?;
    append_replica_word(source, into)?;
    into.extend_from_slice(name.as_bytes())
}
