ghost use Rattle.std.specs.Prelude.{◌≡◌, ◌*◌, true, false, List, ℕ, Some, length, IsSome, IfOk, IfErr, IfSome, option_map};
ghost use Rattle.vol_units.specs.Size.{IsVolumeSize};
ghost use Rattle.backup_units.specs.Backups.{IsBackup, KeepsBackups};
ghost use Rattle.backup_units.specs.Blocks.{page_bytes};
ghost use Rattle.backup_units.specs.Faults.{HasFault};
ghost use Rattle.backup_units.specs.Names.{cfg_name};
ghost use Rattle.backup_make.specs.Giving.{KeepsGiver, Stays, HasCopy};
ghost use Rattle.backup_make.specs.Made.{IsMade, IsMadeDisk, HasCopyOf, HasCfgs, cfg_of, AnswersMake, is_refusal};
ghost use Rattle.backup_make.specs.Made.{OnlyBackup, HasBlocksIfSeen};
ghost use Rattle.backup_make.specs.Making.{AddsBlocks, OnlyBlocks, IsBase, HoldsAnotherPage, IfDiffers};
ghost use Rattle.backup_make.specs.Making.{is_make_fault, lacks_replica, tells_exists};

use crate::cfgs::{has_cfg, put_cfgs, same_time, text_of};
use crate::error::MakeError;
use crate::gather::gather_blocks;
use crate::giver::PageGiver;
use backup_config::{BackupCfg, BackupList};
use backup_units::{Checksum, PAGE_LENGTH};
use std::alloc::Global;
use std::sync::Wait;
use target_traits::Target;
use vol_units::{LayerName, PlainName, TimeText, VolumeSize};

/// Makes a backup of a live name's copy: blocks first, then the cfg of the volume, and the backup's own cfg last, so that
/// a backup that can be seen has its blocks. With a base only those pages are read that may differ from it.
pub fn make<R: Wait, T: Target, P: PageGiver>(
    rt: &R,
    alloc: Global,
    target: &mut T,
    volume: &PlainName,
    backup: &PlainName,
    snapshot: &LayerName,
    size: VolumeSize,
    now: &TimeText,
    pages: &mut P,
    base: Option<&BackupList>,
) -> Result<BackupList, MakeError>
    requires ready { P.ready pages.old }
    requires asked { P.asked pages.old ≡ snapshot.now }
    requires copy { HasCopy (P.copies pages.old (P.asked pages.old)) size }
    requires base { IfSome (option_map (λ b. b.now) base)
        (λ b. IsBase T.tells (T.holds target.old) volume.now (P.copies pages.old) b.snapshot b.blocks) }
    ensures made { IfOk result (IsMade T.tells (T.holds target.new) volume.now
        (P.copies pages.old (P.asked pages.old)) snapshot.now) }

    // The disk of the list is that copy.
    ensures disk { T.tells ≡ true → IfOk result (IsMadeDisk (T.holds target.new) volume.now
        (P.copies pages.old (P.asked pages.old))) }
    ensures cfgs { T.tells ≡ true → IfOk result
        (λ list. HasCfgs (T.holds target.new) (cfg_of volume.now backup.now now.now list) size) }
    ensures has { T.tells ≡ true → IfOk result (λ _. HasCopyOf (T.holds target.new) volume.now backup.now
        (P.copies pages.old (P.asked pages.old))) }
    ensures answer { T.tells ≡ true → AnswersMake (T.holds target.old (cfg_name volume.now backup.now)) result }

    // Where there is such a backup, nothing changes.
    ensures there { T.tells ≡ true → IsSome (T.holds target.old (cfg_name volume.now backup.now))
        → T.holds target.new ≡ T.holds target.old }

    // After any answer, that of a target that failed too.
    ensures keeps { T.tells ≡ true → KeepsBackups volume.now backup.now (T.holds target.old) (T.holds target.new) }
    ensures others { T.tells ≡ true → OnlyBackup volume.now backup.now (T.holds target.old) (T.holds target.new) }
    ensures seen { T.tells ≡ true → HasBlocksIfSeen volume.now backup.now
        (P.copies pages.old (P.asked pages.old)) (T.holds target.old) (T.holds target.new) }
    ensures unmade { T.tells ≡ true → IfErr result (λ e. is_refusal e ≡ true
        → OnlyBlocks volume.now (T.holds target.old) (T.holds target.new)) }
    ensures none { IfErr result (λ e. lacks_replica e ≡ true → P.has_none pages.new) }

    // For a page that is not all zeros the target holds another block of its checksum.
    ensures differs { T.tells ≡ true → IfErr result (IfDiffers
        (HoldsAnotherPage (T.holds target.new) volume.now (P.copies pages.old (P.asked pages.old)))) }
    ensures giver { KeepsGiver P.ready P.home P.lasts pages.old pages.new }
    ensures stays { Stays (P.copies pages.old) (P.copies pages.new) (P.asked pages.old) (P.asked pages.new) }
    ensures cause { HasFault is_make_fault (T.faults target.old) (T.faults target.new) result }
{
    if has_cfg(alloc, target, volume, backup)? {
        return Err(MakeError::Exists);
    }
    let blocks = gather_over(rt, alloc, target, volume, size, pages, base)?;
    let named = String::from_str(alloc, text_of(snapshot))?;
    let cfg = BackupCfg {
        volume: *volume,
        name: *backup,
        created: same_time(alloc, now)?,
        list: BackupList::new(named, blocks),
    };
    put_cfgs(alloc, target, &cfg, size)?;
    Ok(cfg.list)
}

/// Puts the blocks of the asked name's copy, of that size, and lists them. A base of which the snapshot has no name that a
/// layer can have is none: no layer of that name is live.
fn gather_over<R: Wait, T: Target, P: PageGiver>(
    rt: &R,
    alloc: Global,
    target: &mut T,
    volume: &PlainName,
    size: VolumeSize,
    pages: &mut P,
    base: Option<&BackupList>,
) -> Result<Vec<Option<Checksum>>, MakeError>
    requires ready { P.ready pages.old }
    requires copy { HasCopy (P.copies pages.old (P.asked pages.old)) size }
    requires base { IfSome (option_map (λ b. b.now) base)
        (λ b. IsBase T.tells (T.holds target.old) volume.now (P.copies pages.old) b.snapshot b.blocks) }
    ensures backup { IfOk result (λ blocks. (disk : List ℕ) → P.copies pages.old (P.asked pages.old) ≡ Some disk
        → IsBackup T.tells (T.holds target.new) volume.now disk blocks.items) }
    ensures size { IfOk result (λ blocks. length blocks.items * page_bytes ≡ size) }
    ensures volume { IfOk result (λ _. IsVolumeSize size) }
    ensures giver { KeepsGiver P.ready P.home P.lasts pages.old pages.new }
    ensures stays { Stays (P.copies pages.old) (P.copies pages.new) (P.asked pages.old) (P.asked pages.new) }
    ensures adds { T.tells ≡ true → AddsBlocks volume.now (T.holds target.old) (T.holds target.new) }
    ensures cause { HasFault is_make_fault (T.faults target.old) (T.faults target.new) result }
    ensures none { IfErr result (λ e. lacks_replica e ≡ true → P.has_none pages.new) }
    ensures fresh { IfErr result (λ e. tells_exists e ≡ false) }
    ensures differs { T.tells ≡ true → IfErr result (IfDiffers
        (HoldsAnotherPage (T.holds target.new) volume.now (P.copies pages.old (P.asked pages.old)))) }
{
    let count = size.bytes() as usize / PAGE_LENGTH;
    if let Some(list) = base {
        if let Ok(name) = LayerName::read(list.snapshot().as_bytes()) {
            let listed = list.blocks();
            return gather_blocks(
                rt,
                alloc,
                target,
                volume,
                count,
                pages,
                Some(&name),
                Some(listed),
            );
        }
    }
    gather_blocks(rt, alloc, target, volume, count, pages, None, None)
}
