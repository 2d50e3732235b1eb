ghost use Rattle.std.specs.Prelude.{◌≡◌, ◌++◌, ◌∷◌, [], true, false, is_some, count_by, IfOk, IfErr, OnOk};
ghost use Rattle.backup_units.specs.Faults.{HasFault};
ghost use Rattle.backup_restore.specs.Errors.{is_refusal, is_target_fault, is_write_fault};
ghost use Rattle.backup_restore.specs.Listed.{AreLines, IsListOf, AnswersList, WritesList, WritesSomeList, backup_line};
ghost use Rattle.backup_restore.specs.Listing.{AddsLine, RefusesOneOf};
ghost use Rattle.backup_restore.specs.ReadCfg.{AnswersCfg};

use crate::blocks::write;
use crate::cfg::read_cfg;
use crate::error::RestoreError;
use crate::names::backup_names;
use backup_config::BackupCfg;
use backup_units::Checksum;
use itoa::Buffer;
use outer_traits::Sink;
use std::alloc::{AllocError, Global};
use target_traits::Target;
use vol_units::PlainName;

/// Writes a line for each backup of a volume, `backup NAME SNAPSHOT BLOCKS`, in byte order of their names. BLOCKS is how
/// many blocks are listed. All cfgs are read before any line is written.
pub fn list_backups<T: Target, K: Sink>(
    alloc: Global,
    target: &mut T,
    volume: &PlainName,
    sink: &mut K,
) -> Result<(), RestoreError>
    ensures whole { T.tells ≡ true → OnOk result
        (WritesList (T.holds target.old) volume.now (K.contents sink.old) (K.contents sink.new)) }

    // After any answer.
    ensures prefix { T.tells ≡ true
        → WritesSomeList (T.holds target.old) volume.now (K.contents sink.old) (K.contents sink.new) }

    // Nothing is written where an object of a backup is refused.
    ensures unwritten { T.tells ≡ true → IfErr result (λ e. is_refusal e ≡ true → sink.new ≡ sink.old) }
    ensures answer { T.tells ≡ true → AnswersList (T.holds target.old) volume.now result }
    ensures same { T.holds target.new ≡ T.holds target.old }
    ensures cause { HasFault is_target_fault (T.faults target.old) (T.faults target.new) result }
    ensures write_cause { HasFault is_write_fault (K.faults sink.old) (K.faults sink.new) result }
{
    match list_text(alloc, target, volume) {
        Ok(text) => write(sink, &text),
        Err(e) => Err(e),
    }
}

/// The lines of all backups of the volume.
fn list_text<T: Target>(
    alloc: Global,
    target: &mut T,
    volume: &PlainName,
) -> Result<Vec<u8>, RestoreError>
    ensures text { T.tells ≡ true → IfOk result (λ text. IsListOf (T.holds target.old) volume.now text.items) }
    ensures answer { T.tells ≡ true → AnswersList (T.holds target.old) volume.now result }
    ensures same { T.holds target.new ≡ T.holds target.old }
    ensures cause { HasFault is_target_fault (T.faults target.old) (T.faults target.new) result }
    ensures no_write { IfErr result (λ e. is_write_fault e ≡ false) }
{
    let names = backup_names(alloc, target, volume)?;
    lines_of(alloc, target, volume, &names)
}

/// The lines of these backups.
fn lines_of<T: Target>(
    alloc: Global,
    target: &mut T,
    volume: &PlainName,
    names: &[PlainName],
) -> Result<Vec<u8>, RestoreError>
    ensures lines { T.tells ≡ true
        → IfOk result (λ text. AreLines (T.holds target.old) volume.now names.now text.items) }
    ensures refused { T.tells ≡ true → IfErr result (RefusesOneOf (T.holds target.old) volume.now names.now) }
    ensures same { T.holds target.new ≡ T.holds target.old }
    ensures cause { HasFault is_target_fault (T.faults target.old) (T.faults target.new) result }
    ensures no_write { IfErr result (λ e. is_write_fault e ≡ false) }
{
    let mut text = Vec::new(alloc);
    for name in names {
        add_line(alloc, target, volume, name, &mut text)?;
    }
    Ok(text)
}

/// Adds the line of a backup, whose cfg is read for it.
fn add_line<T: Target>(
    alloc: Global,
    target: &mut T,
    volume: &PlainName,
    name: &PlainName,
    text: &mut Vec<u8>,
) -> Result<(), RestoreError>
    ensures line { T.tells ≡ true → OnOk result
        (AddsLine (T.holds target.old) volume.now name.now text.old.items text.new.items) }
    ensures refused { T.tells ≡ true
        → IfErr result (λ e. AnswersCfg (T.holds target.old) volume.now name.now (Err e)) }
    ensures same { T.holds target.new ≡ T.holds target.old }
    ensures cause { HasFault is_target_fault (T.faults target.old) (T.faults target.new) result }
    ensures no_write { IfErr result (λ e. is_write_fault e ≡ false) }
{
    let cfg = read_cfg(alloc, target, volume, name)?;
    push_line(name, &cfg, text)?;
    Ok(())
}

/// Adds the line of a backup that has this cfg.
fn push_line(name: &PlainName, cfg: &BackupCfg, text: &mut Vec<u8>) -> Result<(), AllocError>
    ensures { OnOk result (text.new.items ≡ text.old.items ++ (backup_line name.now cfg.now ++ (10 ∷ []))) }
{
    let mut digits = Buffer::new();
    text.extend_from_slice(b"backup ")?;
    text.extend_from_slice(name.as_bytes())?;
    text.push(b' ')?;
    text.extend_from_slice(cfg.list.snapshot().as_bytes())?;
    text.push(b' ')?;
    text.extend_from_slice(digits.format(listed_count(cfg.list.blocks())).as_bytes())?;
    text.push(b'\n')?;
    Ok(())
}

/// How many blocks are listed.
fn listed_count(blocks: &[Option<Checksum>]) -> usize
    ensures { result ≡ count_by is_some blocks.now }
{
    blocks.iter().filter(|block| block.is_some()).count()
}
