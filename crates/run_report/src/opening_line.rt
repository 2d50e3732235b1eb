ghost use Rattle.std.specs.Prelude.{◌≡◌, ◌++◌, OnOk, OnErr, take, length, option_map};
ghost use Rattle.run_report.specs.Lines.{opening_line, opened_text, reason_text, layer_text};

use crate::reason::Reason;
use crate::words::{append_decimal, append_replica_word, text_of_mode, whole_or_none};
use std::alloc::AllocError;
use vol_units::LayerName;
use volume_model::Mode;

/// Appends the line of a replica whose folder was opened, with the reason where it is not read.
pub fn print_opening(
    r: u8,
    reason: Option<&Reason<'_>>,
    into: &mut Vec<u8>,
) -> Result<(), AllocError>
    ensures ok { OnOk result (into.new.items
        ≡ into.old.items ++ opening_line r (option_map (λ why. reason_text why.now) reason.entry)) }
    ensures err { OnErr result (into.new.items ≡ into.old.items) }
{
    let start = into.len();
    let printed = append_opening(r, reason, into);
    whole_or_none(printed, start, into)
}

fn append_opening(r: u8, reason: Option<&Reason<'_>>, into: &mut Vec<u8>) -> Result<(), AllocError>
    ensures ok { OnOk result (into.new.items
        ≡ into.old.items ++ opening_line r (option_map (λ why. reason_text why.now) reason.entry)) }
    ensures kept { take (length into.old.items) into.new.items ≡ into.old.items }
{
    into.extend_from_slice(b"open ")?;
    append_replica_word(r, into)?;
    append_opened(reason, into)?;
    into.push(b'\n')?;
    Ok(())
}

fn append_opened(reason: Option<&Reason<'_>>, into: &mut Vec<u8>) -> Result<(), AllocError>
    ensures ok { OnOk result (into.new.items
        ≡ into.old.items ++ opened_text (option_map (λ why. reason_text why.now) reason.entry)) }
    ensures kept { take (length into.old.items) into.new.items ≡ into.old.items }
{
    match reason {
        None => into.extend_from_slice(text_of_mode(Mode::Rw).as_bytes()),
        Some(reason) => {
            into.extend_from_slice(text_of_mode(Mode::Err).as_bytes())?;
            into.push(b' ')?;
            append_reason(reason, into)
        }
    }
}

fn append_reason(reason: &Reason<'_>, into: &mut Vec<u8>) -> Result<(), AllocError>
    ensures ok { OnOk result (into.new.items ≡ into.old.items ++ reason_text reason.now) }
    ensures kept { take (length into.old.items) into.new.items ≡ into.old.items }
{
    match reason {
        Reason::Unclean(flag) => {
            into.extend_from_slice(b"unclean ")?;
            into.extend_from_slice(flag.as_bytes())
        }
        Reason::Damaged { file, place } => {
            into.extend_from_slice(b"damaged ")?;
            into.extend_from_slice(file.as_bytes())?;
            into.push(b' ')?;
            append_decimal(*place, into)
        }
        Reason::Shape(layer) => {
            into.extend_from_slice(b"shape ")?;
            append_layer(layer, into)
        }
        Reason::Differs { layer, block } => {
            into.extend_from_slice(b"differs ")?;
            append_layer(layer, into)?;
            into.push(b' ')?;
            append_decimal(u64::from(*block), into)
        }
    }
}

/// Appends a layer's name, and that of the head where it is none.
fn append_layer(layer: &Option<LayerName>, into: &mut Vec<u8>) -> Result<(), AllocError>
    ensures ok { OnOk result (into.new.items ≡ into.old.items ++ layer_text layer.now) }
    ensures kept { take (length into.old.items) into.new.items ≡ into.old.items }
{
    match layer {
        None => into.extend_from_slice(b"head"),
        Some(name) => into.extend_from_slice(name.as_bytes()),
    }
}
