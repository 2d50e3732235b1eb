ghost use Rattle.std.specs.Prelude.{◌≡◌, ◌++◌, ◌∷◌, [], OnOk, OnErr, take, length, flat_map};
ghost use Rattle.run_report.specs.Lines.{mode_line, chain_line, chain_owner, layer_word, head_line};

use crate::words::{append_replica_word, text_of_mode, whole_or_none};
use std::alloc::AllocError;
use vol_units::LayerName;
use volume_model::Mode;

/// Appends the line of a replica's mode.
pub fn print_mode(r: u8, mode: Mode, into: &mut Vec<u8>) -> Result<(), AllocError>
    ensures ok { OnOk result (into.new.items ≡ into.old.items ++ mode_line r mode) }
    ensures err { OnErr result (into.new.items ≡ into.old.items) }
{
    let start = into.len();
    let printed = append_mode(r, mode, into);
    whole_or_none(printed, start, into)
}

/// Appends the line of a chain: the head, and the layers below it from its parent down, each with its mark.
/// Of which replica it is, where that is said.
pub fn print_chain(
    r: Option<u8>,
    names: &[(LayerName, bool)],
    into: &mut Vec<u8>,
) -> Result<(), AllocError>
    ensures ok { OnOk result (into.new.items ≡ into.old.items ++ chain_line r names.now) }
    ensures err { OnErr result (into.new.items ≡ into.old.items) }
{
    let start = into.len();
    let printed = append_chain(r, names, into);
    whole_or_none(printed, start, into)
}

/// Appends the line of a head's digest.
pub fn print_head(r: u8, digest: &[u8; 64], into: &mut Vec<u8>) -> Result<(), AllocError>
    ensures ok { OnOk result (into.new.items ≡ into.old.items ++ head_line r digest.now) }
    ensures err { OnErr result (into.new.items ≡ into.old.items) }
{
    let start = into.len();
    let printed = append_head(r, digest, into);
    whole_or_none(printed, start, into)
}

fn append_mode(r: u8, mode: Mode, into: &mut Vec<u8>) -> Result<(), AllocError>
    ensures ok { OnOk result (into.new.items ≡ into.old.items ++ mode_line r mode) }
    ensures kept { take (length into.old.items) into.new.items ≡ into.old.items }
{
    into.extend_from_slice(b"mode ")?;
    append_replica_word(r, into)?;
    into.extend_from_slice(text_of_mode(mode).as_bytes())?;
    into.push(b'\n')?;
    Ok(())
}

fn append_chain(
    r: Option<u8>,
    names: &[(LayerName, bool)],
    into: &mut Vec<u8>,
) -> Result<(), AllocError>
    ensures ok { OnOk result (into.new.items ≡ into.old.items ++ chain_line r names.now) }
    ensures kept { take (length into.old.items) into.new.items ≡ into.old.items }
{
    into.extend_from_slice(b"chain ")?;
    append_owner(r, into)?;
    into.extend_from_slice(b"head")?;
    append_layers(names, into)?;
    into.push(b'\n')?;
    Ok(())
}

fn append_head(r: u8, digest: &[u8; 64], into: &mut Vec<u8>) -> Result<(), AllocError>
    ensures ok { OnOk result (into.new.items ≡ into.old.items ++ head_line r digest.now) }
    ensures kept { take (length into.old.items) into.new.items ≡ into.old.items }
{
    into.extend_from_slice(b"head ")?;
    append_replica_word(r, into)?;
    into.extend_from_slice(digest)?;
    into.push(b'\n')?;
    Ok(())
}

fn append_owner(r: Option<u8>, into: &mut Vec<u8>) -> Result<(), AllocError>
    ensures ok { OnOk result (into.new.items ≡ into.old.items ++ chain_owner r) }
    ensures kept { take (length into.old.items) into.new.items ≡ into.old.items }
{
    match r {
        None => Ok(()),
        Some(r) => append_replica_word(r, into),
    }
}

fn append_layers(names: &[(LayerName, bool)], into: &mut Vec<u8>) -> Result<(), AllocError>
    ensures ok { OnOk result (into.new.items ≡ into.old.items ++ flat_map layer_word names.now) }
    ensures kept { take (length into.old.items) into.new.items ≡ into.old.items }
{
    for (name, is_marked) in names {
        append_layer(name, *is_marked, into)?;
    }
    Ok(())
}

fn append_layer(name: &LayerName, is_marked: bool, into: &mut Vec<u8>) -> Result<(), AllocError>
    ensures ok { OnOk result (into.new.items ≡ into.old.items ++ layer_word (name.now, is_marked)) }
    ensures kept { take (length into.old.items) into.new.items ≡ into.old.items }
{
    into.push(b' ')?;
    into.extend_from_slice(name.as_bytes())?;
    if is_marked {
        into.push(b'*')?;
    }
    Ok(())
}
