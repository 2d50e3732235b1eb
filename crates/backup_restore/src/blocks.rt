ghost use Rattle.std.specs.Prelude.{◌≡◌, ◌*◌, true, false, IfOk, OnOk, IfErr};
ghost use Rattle.std.specs.Io.KnownBytes.{Appends};
ghost use Rattle.outer_traits.specs.Passing.{WritesPrefix};
ghost use Rattle.vol_units.specs.Bytes.{zeros};
ghost use Rattle.backup_units.specs.Backups.{IsWhole, page_of, disk_of};
ghost use Rattle.backup_units.specs.Blocks.{HoldsBlock};
ghost use Rattle.backup_units.specs.Faults.{HasFault};
ghost use Rattle.backup_restore.specs.Errors.{is_refusal, is_target_fault, is_write_fault};
ghost use Rattle.backup_restore.specs.Restoring.{AnswersBlocks, RefusesBlock, RefusesPage, zeros_at_once};

use crate::error::{Refusal, RestoreError, StoredObject};
use backup_units::{Checksum, PAGE_LENGTH};
use block_store::{GetError, get_block};
use outer_traits::{Sink, write_all};
use std::alloc::{AllocError, Global};
use target_traits::Target;
use vol_units::PlainName;

/// So many zeros are written at once where no block is listed.
const ZEROS_AT_ONCE: usize = 65_536;

/// Restores a disk: looks at each listed block, and only then writes.
pub fn restore_blocks<T: Target, K: Sink>(
    alloc: Global,
    target: &mut T,
    volume: &PlainName,
    listed: &[Option<Checksum>],
    sink: &mut K,
) -> Result<(), RestoreError>
    ensures whole { T.tells ≡ true → OnOk result
        (Appends (K.contents sink.old) (K.contents sink.new) (disk_of (T.holds target.old) volume.now listed.now)) }
    ensures prefix { T.tells ≡ true
        → WritesPrefix (K.contents sink.old) (K.contents sink.new) (disk_of (T.holds target.old) volume.now listed.now) }

    // Nothing is written of a backup of which a block is bad.
    ensures unwritten { T.tells ≡ true → IfErr result (λ e. is_refusal e ≡ true → sink.new ≡ sink.old) }
    ensures answer { T.tells ≡ true → AnswersBlocks (T.holds target.old) volume.now listed.now result }
    ensures same { T.holds target.new ≡ T.holds target.old }
    ensures cause { HasFault is_target_fault (T.faults target.old) (T.faults target.new) result }
    ensures write_cause { HasFault is_write_fault (K.faults sink.old) (K.faults sink.new) result }
{
    match check_blocks(alloc, target, volume, listed) {
        Ok(_) => write_blocks(alloc, target, volume, listed, sink),
        Err(e) => Err(e),
    }
}

/// Looks at each listed block.
fn check_blocks<T: Target>(
    alloc: Global,
    target: &mut T,
    volume: &PlainName,
    listed: &[Option<Checksum>],
) -> Result<(), RestoreError>
    ensures answer { T.tells ≡ true → AnswersBlocks (T.holds target.old) volume.now listed.now result }
    ensures same { T.holds target.new ≡ T.holds target.old }
    ensures cause { HasFault is_target_fault (T.faults target.old) (T.faults target.new) result }
    ensures no_write { IfErr result (λ e. is_write_fault e ≡ false) }
{
    for page in listed {
        check_page(alloc, target, volume, page)?;
    }
    Ok(())
}

/// Looks at the block of a page.
fn check_page<T: Target>(
    alloc: Global,
    target: &mut T,
    volume: &PlainName,
    page: &Option<Checksum>,
) -> Result<(), RestoreError>
    ensures whole { T.tells ≡ true → OnOk result (IsWhole (T.holds target.old) volume.now page.now) }
    ensures refused { T.tells ≡ true → IfErr result (RefusesPage (T.holds target.old) volume.now page.now) }
    ensures same { T.holds target.new ≡ T.holds target.old }
    ensures cause { HasFault is_target_fault (T.faults target.old) (T.faults target.new) result }
    ensures no_write { IfErr result (λ e. is_write_fault e ≡ false) }
{
    match page {
        None => Ok(()),
        Some(checksum) => {
            let _ = get(alloc, target, volume, checksum)?;
            Ok(())
        }
    }
}

/// Writes the disk of a list, page by page, and looks at each block again.
fn write_blocks<T: Target, K: Sink>(
    alloc: Global,
    target: &mut T,
    volume: &PlainName,
    listed: &[Option<Checksum>],
    sink: &mut K,
) -> Result<(), RestoreError>
    ensures whole { T.tells ≡ true → OnOk result
        (Appends (K.contents sink.old) (K.contents sink.new) (disk_of (T.holds target.old) volume.now listed.now)) }
    ensures prefix { T.tells ≡ true
        → WritesPrefix (K.contents sink.old) (K.contents sink.new) (disk_of (T.holds target.old) volume.now listed.now) }
    ensures answer { T.tells ≡ true → AnswersBlocks (T.holds target.old) volume.now listed.now result }
    ensures same { T.holds target.new ≡ T.holds target.old }
    ensures cause { HasFault is_target_fault (T.faults target.old) (T.faults target.new) result }
    ensures write_cause { HasFault is_write_fault (K.faults sink.old) (K.faults sink.new) result }
{
    let piece = zeros_of(alloc, ZEROS_AT_ONCE)?;
    for page in listed {
        write_page(alloc, target, volume, page, &piece, sink)?;
    }
    Ok(())
}

/// Writes a page: its block, or zeros where none is listed.
fn write_page<T: Target, K: Sink>(
    alloc: Global,
    target: &mut T,
    volume: &PlainName,
    page: &Option<Checksum>,
    piece: &[u8],
    sink: &mut K,
) -> Result<(), RestoreError>
    requires { piece.now ≡ zeros zeros_at_once }
    ensures written { T.tells ≡ true → OnOk result
        (Appends (K.contents sink.old) (K.contents sink.new) (page_of (T.holds target.old) volume.now page.now)) }
    ensures prefix { T.tells ≡ true
        → WritesPrefix (K.contents sink.old) (K.contents sink.new) (page_of (T.holds target.old) volume.now page.now) }
    ensures whole { T.tells ≡ true → OnOk result (IsWhole (T.holds target.old) volume.now page.now) }
    ensures refused { T.tells ≡ true → IfErr result (RefusesPage (T.holds target.old) volume.now page.now) }
    ensures same { T.holds target.new ≡ T.holds target.old }
    ensures cause { HasFault is_target_fault (T.faults target.old) (T.faults target.new) result }
    ensures write_cause { HasFault is_write_fault (K.faults sink.old) (K.faults sink.new) result }
{
    match page {
        None => write_zeros(piece, PAGE_LENGTH / ZEROS_AT_ONCE, sink),
        Some(checksum) => {
            let bytes = get(alloc, target, volume, checksum)?;
            write(sink, &bytes)
        }
    }
}

/// Writes so many pieces of zeros.
fn write_zeros<K: Sink>(piece: &[u8], count: usize, sink: &mut K) -> Result<(), RestoreError>
    requires { piece.now ≡ zeros zeros_at_once }
    ensures written { OnOk result (Appends (K.contents sink.old) (K.contents sink.new) (zeros (count * zeros_at_once))) }
    ensures prefix { WritesPrefix (K.contents sink.old) (K.contents sink.new) (zeros (count * zeros_at_once)) }
    ensures cause { HasFault is_write_fault (K.faults sink.old) (K.faults sink.new) result }
    ensures no_refusal { IfErr result (λ e. (is_refusal e ≡ false) × (is_target_fault e ≡ false)) }
{
    for _ in 0..count {
        write(sink, piece)?;
    }
    Ok(())
}

fn zeros_of(alloc: Global, count: usize) -> Result<Vec<u8>, AllocError>
    ensures { IfOk result (λ bytes. bytes.items ≡ zeros count) }
{
    vec![in alloc; 0; count]
}

pub(crate) fn write<K: Sink>(sink: &mut K, bytes: &[u8]) -> Result<(), RestoreError>
    ensures written { OnOk result (Appends (K.contents sink.old) (K.contents sink.new) bytes.now) }
    ensures prefix { WritesPrefix (K.contents sink.old) (K.contents sink.new) bytes.now }
    ensures cause { HasFault is_write_fault (K.faults sink.old) (K.faults sink.new) result }
    ensures no_refusal { IfErr result (λ e. (is_refusal e ≡ false) × (is_target_fault e ≡ false)) }
{
    Ok(write_all(sink, bytes)?)
}

/// A block, or why it is refused.
fn get<T: Target>(
    alloc: Global,
    target: &mut T,
    volume: &PlainName,
    checksum: &Checksum,
) -> Result<Vec<u8>, RestoreError>
    ensures bytes { T.tells ≡ true → IfOk result (λ bytes. HoldsBlock (T.holds target.old) volume.now checksum.now bytes.items) }
    ensures answer { T.tells ≡ true → IfErr result (RefusesBlock (T.holds target.old) volume.now checksum.now) }
    ensures same { T.holds target.new ≡ T.holds target.old }
    ensures cause { HasFault is_target_fault (T.faults target.old) (T.faults target.new) result }
    ensures no_write { IfErr result (λ e. is_write_fault e ≡ false) }
{
    match get_block(alloc, target, volume, checksum) {
        Ok(bytes) => Ok(bytes),
        Err(GetError::Missing) => Err(RestoreError::Refused(
            Refusal::Missing,
            StoredObject::Block(*checksum),
        )),
        Err(GetError::Damaged) => Err(RestoreError::Refused(
            Refusal::Damaged,
            StoredObject::Block(*checksum),
        )),
        Err(GetError::TargetFault) => Err(RestoreError::TargetFault),
        Err(GetError::NoMemory) => Err(RestoreError::NoMemory),
    }
}
