ghost use Rattle.std.specs.Prelude.{◌≡◌, ◌↔◌, true, IsTrue, IfOk};
ghost use Rattle.backup_units.specs.Blocks.{IsBlock};
ghost use Rattle.backup_units.specs.Faults.{HasFault};
ghost use Rattle.backup_units.specs.Names.{block_name};
ghost use Rattle.block_store.specs.Answers.{AnswersGet, is_get_fault};

use crate::error::GetError;
use backup_units::{Checksum, PAGE_LENGTH, block_name};
use std::alloc::Global;
use target_traits::Target;
use vol_units::PlainName;

/// The bytes of a volume's block of that checksum.
pub fn get_block<T: Target>(
    alloc: Global,
    target: &mut T,
    volume: &PlainName,
    checksum: &Checksum,
) -> Result<Vec<u8>, GetError>
    ensures block { IfOk result (λ bytes. IsBlock checksum.now bytes.items) }
    ensures answer { T.tells ≡ true
        → AnswersGet (T.holds target.old (block_name volume.now checksum.now)) checksum.now result }
    ensures same { T.holds target.new ≡ T.holds target.old }
    ensures cause { HasFault is_get_fault (T.faults target.old) (T.faults target.new) result }
{
    let name = block_name(alloc, volume, checksum)?;
    get_named(target, &name, checksum)
}

/// The same of the object of that name. One byte more than a block is asked for, so that a longer object is known to be
/// none.
#[tactic(auto, using(crate::proofs::BlockLemmas::blocks))]
fn get_named<T: Target>(
    target: &mut T,
    name: &str,
    checksum: &Checksum,
) -> Result<Vec<u8>, GetError>
    ensures block { IfOk result (λ bytes. IsBlock checksum.now bytes.items) }
    ensures answer { T.tells ≡ true → AnswersGet (T.holds target.old name.now) checksum.now result }
    ensures same { T.holds target.new ≡ T.holds target.old }
    ensures cause { HasFault is_get_fault (T.faults target.old) (T.faults target.new) result }
{
    match target.get(name, PAGE_LENGTH + 1)? {
        None => Err(GetError::Missing),
        Some(bytes) => {
            if is_block(&bytes, checksum) {
                Ok(bytes)
            } else {
                Err(GetError::Damaged)
            }
        }
    }
}

/// Whether these bytes are a block of that checksum.
pub(crate) fn is_block(bytes: &[u8], checksum: &Checksum) -> bool
    ensures { IsTrue result ↔ IsBlock checksum.now bytes.now }
{
    bytes.len() == PAGE_LENGTH && Checksum::of(bytes) == *checksum
}
