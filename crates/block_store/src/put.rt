ghost use Rattle.std.specs.Prelude.{◌≡◌, true, length, IfOk, OnOk};
ghost use Rattle.backup_units.specs.Blocks.{HoldsBlock, KeepsBlocks, page_bytes};
ghost use Rattle.backup_units.specs.Faults.{HasFault};
ghost use Rattle.backup_units.specs.Names.{block_name};
ghost use Rattle.digest.specs.Digest.{digest_text};
ghost use Rattle.outer_traits.specs.Causes.{HasOuterCause};
ghost use Rattle.target_traits.specs.Objects.{OtherObjectsStay};
ghost use Rattle.block_store.specs.Answers.{AnswersPut, IsSeen, checksum_in, is_store_fault};

use crate::error::StoreError;
use crate::get::is_block;
use backup_units::{Checksum, PAGE_LENGTH, block_name};
use std::alloc::Global;
use target_traits::{Outer, Target};
use vol_units::PlainName;

/// How a block came to be on the target.
#[derive(Clone, Copy, Debug, PartialEq, Eq)]
pub enum Put {
    /// It was written.
    Stored(Checksum),
    /// It was there.
    Same(Checksum),
}

/// What stands where a block is to be put.
#[derive(Clone, Copy, Debug)]
pub enum Seen {
    /// No block of that checksum.
    Free,
    /// The same block.
    Same,
    /// Another block of that checksum.
    Other,
}

/// Puts a page as a block of the volume, under the name of its checksum, where it is not there yet. An object of that
/// name that is no block of that checksum is written anew. A page is hashed once here, and a block that is there is
/// compared.
pub fn put_block<T: Target>(
    alloc: Global,
    target: &mut T,
    volume: &PlainName,
    page: &[u8],
) -> Result<Put, StoreError>
    requires { length page.now ≡ page_bytes }
    ensures checksum { IfOk result (λ put. checksum_in put ≡ digest_text page.now) }
    ensures answer { T.tells ≡ true
        → AnswersPut (T.holds target.old (block_name volume.now (digest_text page.now))) page.now result }
    ensures ok { T.tells ≡ true
        → OnOk result (HoldsBlock (T.holds target.new) volume.now (digest_text page.now) page.now) }

    // After any answer, that of a target that failed too.
    ensures keeps { T.tells ≡ true → KeepsBlocks volume.now (T.holds target.old) (T.holds target.new) }
    ensures others { OtherObjectsStay (block_name volume.now (digest_text page.now)) (T.holds target.old) (T.holds target.new) }
    ensures cause { HasFault is_store_fault (T.faults target.old) (T.faults target.new) result }
{
    let checksum = Checksum::of(page);
    let name = block_name(alloc, volume, &checksum)?;
    match look(target, &name, page, &checksum)? {
        Seen::Same => Ok(Put::Same(checksum)),
        Seen::Other => Err(StoreError::BlockDiffers(checksum)),
        Seen::Free => {
            target.put(&name, page)?;
            Ok(Put::Stored(checksum))
        }
    }
}

/// What the object of that name is to a page of that checksum.
#[tactic(auto, using(crate::proofs::BlockLemmas::blocks))]
fn look<T: Target>(target: &mut T, name: &str, page: &[u8], checksum: &Checksum) -> Outer<Seen>
    requires { length page.now ≡ page_bytes }
    ensures seen { T.tells ≡ true → IfOk result (IsSeen (T.holds target.old name.now) checksum.now page.now) }
    ensures same { T.holds target.new ≡ T.holds target.old }
    ensures cause { HasOuterCause (T.faults target.old) (T.faults target.new) result }
{
    let held = match target.get(name, PAGE_LENGTH + 1)? {
        None => return Ok(Seen::Free),
        Some(held) => held,
    };
    if held.as_slice() == page {
        return Ok(Seen::Same);
    }
    if is_block(&held, checksum) {
        return Ok(Seen::Other);
    }
    Ok(Seen::Free)
}
