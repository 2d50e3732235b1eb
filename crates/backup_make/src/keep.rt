ghost use Rattle.std.specs.Prelude.{◌≡◌, ◌*◌, ◌<◌, ℕ, true, false, List, Some, length, slice_index, IfOk, IfErr, OnOk, IfSome};
ghost use Rattle.backup_units.specs.Backups.{listed_of, HoldsPage, IsBackup};
ghost use Rattle.backup_units.specs.Blocks.{page_bytes};
ghost use Rattle.backup_units.specs.Faults.{HasFault};
ghost use Rattle.backup_make.specs.Giving.{KeepsGiver, Stays};
ghost use Rattle.backup_make.specs.Making.{AddsBlocks, KeptElse, HoldsAnother, HoldsAnotherPage, IfDiffers};
ghost use Rattle.backup_make.specs.Making.{is_make_fault, lacks_replica, tells_exists};

use crate::error::MakeError;
use crate::giver::PageGiver;
use backup_units::{Checksum, is_zeros};
use block_store::{Put, put_block};
use std::alloc::Global;
use std::sync::Wait;
use target_traits::Target;
use vol_units::PlainName;

/// Puts the blocks of these pages, and lists them.
pub(crate) fn keep_pages<R: Wait, T: Target, P: PageGiver>(
    rt: &R,
    alloc: Global,
    target: &mut T,
    volume: &PlainName,
    pages: &mut P,
    wanted: &[u32],
    blocks: &mut [Option<Checksum>],
) -> Result<(), MakeError>
    requires ready { P.ready pages.old }
    requires copy { IfSome (P.copies pages.old (P.asked pages.old)) (λ disk. length disk ≡ length blocks.old * page_bytes) }
    requires within { (i : ℕ) → i < length wanted.now → slice_index wanted.now i < length blocks.old }
    ensures kept { OnOk result ((disk : List ℕ) → P.copies pages.old (P.asked pages.old) ≡ Some disk
        → KeptElse T.tells (T.holds target.old) volume.now disk blocks.old 0 wanted.now
        → IsBackup T.tells (T.holds target.new) volume.now disk blocks.new) }
    ensures size { length blocks.new ≡ length blocks.old }
    ensures giver { KeepsGiver P.ready P.home P.lasts pages.old pages.new }
    ensures stays { Stays (P.copies pages.old) (P.copies pages.new) (P.asked pages.old) (P.asked pages.new) }
    ensures adds { T.tells ≡ true → AddsBlocks volume.now (T.holds target.old) (T.holds target.new) }
    ensures cause { HasFault is_make_fault (T.faults target.old) (T.faults target.new) result }
    ensures none { IfErr result (λ e. lacks_replica e ≡ true → P.has_none pages.new) }
    ensures fresh { IfErr result (λ e. tells_exists e ≡ false) }
    ensures differs { T.tells ≡ true → IfErr result (IfDiffers
        (HoldsAnotherPage (T.holds target.new) volume.now (P.copies pages.old (P.asked pages.old)))) }
{
    for page in wanted {
        pages.page(rt, alloc, *page)?;
        let listed = keep_page(alloc, target, volume, pages.given_page())?;
        blocks[*page as usize] = listed;
    }
    Ok(())
}

/// Puts the block of a page, and says what is listed of it.
fn keep_page<T: Target>(
    alloc: Global,
    target: &mut T,
    volume: &PlainName,
    page: &[u8],
) -> Result<Option<Checksum>, MakeError>
    requires { length page.now ≡ page_bytes }
    ensures listed { IfOk result (λ listed. listed ≡ listed_of page.now) }
    ensures held { T.tells ≡ true → OnOk result (HoldsPage (T.holds target.new) volume.now page.now) }
    ensures adds { T.tells ≡ true → AddsBlocks volume.now (T.holds target.old) (T.holds target.new) }
    ensures cause { HasFault is_make_fault (T.faults target.old) (T.faults target.new) result }
    ensures none { IfErr result (λ e. lacks_replica e ≡ false) }
    ensures fresh { IfErr result (λ e. tells_exists e ≡ false) }
    ensures differs { T.tells ≡ true → IfErr result (IfDiffers (HoldsAnother (T.holds target.new) volume.now page.now)) }
{
    if is_zeros(page) {
        return Ok(None);
    }
    match put_block(alloc, target, volume, page)? {
        Put::Stored(checksum) => Ok(Some(checksum)),
        Put::Same(checksum) => Ok(Some(checksum)),
    }
}
