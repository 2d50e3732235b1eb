ghost use Rattle.std.specs.Prelude.{◌≡◌, ◌*◌, ◌<◌, ◌≤◌, ℕ, true, false, List, Some, None, length, slice_index, IfOk, IfErr, IfSome, option_map};
ghost use Rattle.backup_units.specs.Backups.{listed_at, IsBackup};
ghost use Rattle.backup_units.specs.Blocks.{page_bytes};
ghost use Rattle.backup_units.specs.Faults.{HasFault};
ghost use Rattle.backup_make.specs.Giving.{KeepsGiver, Stays, HasCopy};
ghost use Rattle.backup_make.specs.Making.{AddsBlocks, IsBaseIf, KeptElse, IsStart, listed_in};
ghost use Rattle.backup_make.specs.Making.{HoldsAnotherPage, IfDiffers, is_make_fault, lacks_replica, tells_exists};

use crate::error::MakeError;
use crate::giver::{PageGiver, Pages};
use crate::keep::keep_pages;
use backup_units::Checksum;
use std::alloc::{AllocError, Global};
use std::sync::Wait;
use target_traits::Target;
use vol_units::{LayerName, PlainName};

/// Puts the blocks of the asked name's copy, of so many pages, and lists them. It reads the pages that the giver names
/// alone: the others are as in the base.
pub(crate) fn gather_blocks<R: Wait, T: Target, P: PageGiver>(
    rt: &R,
    alloc: Global,
    target: &mut T,
    volume: &PlainName,
    count: usize,
    pages: &mut P,
    base_name: Option<&LayerName>,
    base: Option<&[Option<Checksum>]>,
) -> Result<Vec<Option<Checksum>>, MakeError>
    requires ready { P.ready pages.old }
    requires count { count ≤ 512 }
    requires copy { HasCopy (P.copies pages.old (P.asked pages.old)) (count * page_bytes) }
    requires base { IsBaseIf T.tells (T.holds target.old) volume.now (P.copies pages.old)
        (option_map (λ n. n.now) base_name) (option_map (λ b. b.now) base) }
    ensures backup { IfOk result (λ blocks. (disk : List ℕ) → P.copies pages.old (P.asked pages.old) ≡ Some disk
        → IsBackup T.tells (T.holds target.new) volume.now disk blocks.items) }
    ensures size { IfOk result (λ blocks. length blocks.items ≡ count) }
    ensures giver { KeepsGiver P.ready P.home P.lasts pages.old pages.new }
    ensures stays { Stays (P.copies pages.old) (P.copies pages.new) (P.asked pages.old) (P.asked pages.new) }
    ensures adds { T.tells ≡ true → AddsBlocks volume.now (T.holds target.old) (T.holds target.new) }
    ensures cause { HasFault is_make_fault (T.faults target.old) (T.faults target.new) result }
    ensures none { IfErr result (λ e. lacks_replica e ≡ true → P.has_none pages.new) }
    ensures fresh { IfErr result (λ e. tells_exists e ≡ false) }
    ensures differs { T.tells ≡ true → IfErr result (IfDiffers
        (HoldsAnotherPage (T.holds target.new) volume.now (P.copies pages.old (P.asked pages.old)))) }
{
    let found = pages.pages(rt, alloc, base_name)?;
    let blocks = start(alloc, &found, base, count)?;
    keep_found(rt, alloc, target, volume, pages, list_of(&found), blocks)
}

/// Puts the blocks of these pages, and lists them.
fn keep_found<R: Wait, T: Target, P: PageGiver>(
    rt: &R,
    alloc: Global,
    target: &mut T,
    volume: &PlainName,
    pages: &mut P,
    wanted: &[u32],
    blocks: Vec<Option<Checksum>>,
) -> Result<Vec<Option<Checksum>>, MakeError>
    requires ready { P.ready pages.old }
    requires copy { IfSome (P.copies pages.old (P.asked pages.old)) (λ disk. length disk ≡ length blocks.items * page_bytes) }
    requires within { (i : ℕ) → i < length wanted.now → slice_index wanted.now i < length blocks.items }
    ensures kept { IfOk result (λ after. (disk : List ℕ) → P.copies pages.old (P.asked pages.old) ≡ Some disk
        → KeptElse T.tells (T.holds target.old) volume.now disk blocks.items 0 wanted.now
        → IsBackup T.tells (T.holds target.new) volume.now disk after.items) }
    ensures size { IfOk result (λ after. length after.items ≡ length blocks.items) }
    ensures giver { KeepsGiver P.ready P.home P.lasts pages.old pages.new }
    ensures stays { Stays (P.copies pages.old) (P.copies pages.new) (P.asked pages.old) (P.asked pages.new) }
    ensures adds { T.tells ≡ true → AddsBlocks volume.now (T.holds target.old) (T.holds target.new) }
    ensures cause { HasFault is_make_fault (T.faults target.old) (T.faults target.new) result }
    ensures none { IfErr result (λ e. lacks_replica e ≡ true → P.has_none pages.new) }
    ensures fresh { IfErr result (λ e. tells_exists e ≡ false) }
    ensures differs { T.tells ≡ true → IfErr result (IfDiffers
        (HoldsAnotherPage (T.holds target.new) volume.now (P.copies pages.old (P.asked pages.old)))) }
{
    let mut blocks = blocks;
    keep_pages(rt, alloc, target, volume, pages, wanted, &mut blocks)?;
    Ok(blocks)
}

/// The list from which a backup starts.
fn start(
    alloc: Global,
    found: &Pages,
    base: Option<&[Option<Checksum>]>,
    count: usize,
) -> Result<Vec<Option<Checksum>>, AllocError>
    requires { count ≤ 512 }
    ensures { IfOk result (λ blocks. IsStart found.now (option_map (λ b. b.now) base.entry) count blocks.items) }
{
    let mut blocks = vec![in alloc; None; count]?;
    if let Pages::Above(_) = found {
        if let Some(listed) = base {
            copy_list(listed, &mut blocks);
        }
    }
    Ok(blocks)
}

/// Copies a list into an empty one, as far as that goes.
fn copy_list(listed: &[Option<Checksum>], blocks: &mut [Option<Checksum>])
    requires { (page : ℕ) → listed_at blocks.old page ≡ None }
    ensures { (page : ℕ) → page < length blocks.old → listed_at blocks.new page ≡ listed_at listed.now page }
{
    for page in 0..blocks.len().min(listed.len()) {
        blocks[page] = listed[page];
    }
}

fn list_of(found: &Pages) -> &[u32]
    ensures { result.now ≡ listed_in found.now }
{
    match found {
        Pages::All(pages) => pages,
        Pages::Above(pages) => pages,
    }
}
