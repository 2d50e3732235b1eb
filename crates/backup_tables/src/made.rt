use crate::copies::{Copies, disk_of};
use backup_make::{BackupList, MakeError, make};
use backup_restore::{Refusal, RestoreError, StoredObject, restore};
use outer_memory::NoFaultSink;
use outer_traits::Sink;
use std::alloc::Global;
use std::process::Abort;
use std::sync::Wait;
use std::test::Fail;
use target_memory::NoFaultTarget;
use target_traits::Target;
use vol_units::{LayerName, PlainName, TimeText};

/// What each page of the two snapshots is filled with.
pub(crate) const FIRST: [u8; 3] = [0x61, 0, 0x64];

pub(crate) const SECOND: [u8; 3] = [0x62, 0, 0x64];

pub(crate) fn plain(text: &str) -> Result<PlainName, Fail> {
    Ok(PlainName::read(text.as_bytes())?)
}

pub(crate) fn layer(text: &str) -> Result<LayerName, Fail> {
    Ok(LayerName::read(text.as_bytes())?)
}

pub(crate) fn time(alloc: Global, text: &str) -> Result<TimeText, Fail> {
    Ok(TimeText::read(alloc, text)?.ok_or("no time")?)
}

/// What came of making two backups.
#[derive(Drop)]
pub(crate) struct Made {
    pub first: Result<BackupList, MakeError>,
    pub second: Result<BackupList, MakeError>,
    /// How many pages were given for the second.
    pub given: u64,
}

/// Makes backup `b1` of `s`, and `b2` of `t`, over the first where that came.
pub(crate) fn make_two<R: Wait, T: Target>(
    rt: &R,
    alloc: Global,
    target: &mut T,
) -> Result<Made, Fail> {
    let (volume, now) = (plain("v")?, time(alloc, "")?);
    let (b1, b2, s, t) = (plain("b1")?, plain("b2")?, layer("s")?, layer("t")?);
    let mut copies = Copies::new(alloc, s, &FIRST, t)?;
    let size = copies.size()?;
    let first = make(
        rt,
        alloc,
        target,
        &volume,
        &b1,
        &s,
        size,
        &now,
        &mut copies,
        None,
    );
    // What `make` tells of a giver does not say how many pages it has.
    if copies.count as usize != SECOND.len() {
        return Err("another size".into());
    }
    let mut copies = copies.next(alloc, t, &SECOND)?;
    let size = copies.size()?;
    let second = match &first {
        Ok(list) => make(
            rt,
            alloc,
            target,
            &volume,
            &b2,
            &t,
            size,
            &now,
            &mut copies,
            Some(list),
        ),
        Err(_) => make(
            rt,
            alloc,
            target,
            &volume,
            &b2,
            &t,
            size,
            &now,
            &mut copies,
            None,
        ),
    };
    Ok(Made {
        first,
        second,
        given: copies.given,
    })
}

/// What came of a restore, without the object that is refused.
#[derive(Clone, Copy, Debug, PartialEq, Eq)]
pub(crate) enum Restored {
    Whole,
    Refused(Refusal),
    TargetFault,
    WriteFault,
    NoMemory,
}

/// Restores a backup of volume `v`.
pub(crate) fn restore_to<T: Target, K: Sink>(
    alloc: Global,
    target: &mut T,
    backup: &str,
    sink: &mut K,
) -> Result<Restored, Fail> {
    let answer = restore(alloc, target, &plain("v")?, &plain(backup)?, sink);
    Ok(match answer {
        Ok(()) => Restored::Whole,
        Err(RestoreError::Refused(kind, _)) => Restored::Refused(kind),
        Err(RestoreError::TargetFault) => Restored::TargetFault,
        Err(RestoreError::WriteFault) => Restored::WriteFault,
        Err(RestoreError::NoMemory) => Restored::NoMemory,
    })
}

/// The backup is restored as the disk of these pages.
pub(crate) fn restores<T: Target>(
    rt: &impl Abort,
    alloc: Global,
    target: &mut T,
    backup: &str,
    fills: &[u8; 3],
) -> Result<(), Fail> {
    let mut sink = NoFaultSink::new(alloc, 1_000_000);
    let answer = restore_to(alloc, target, backup, &mut sink)?;
    assert_eq!(rt; answer, Restored::Whole, "{backup}");
    assert!(rt;
        sink.bytes() == disk_of(alloc, fills)?.as_slice(),
        "{backup}"
    );
    Ok(())
}

#[test]
fn two_backups_share_the_blocks_that_are_the_same(rt: HostRuntime) -> Result<(), Fail> {
    let alloc = rt.alloc();
    let mut target = NoFaultTarget::new(alloc);
    let made = make_two(&rt, alloc, &mut target)?;
    let (first, second) = (made.first?, made.second?);
    // Only the page that changed was read for the second.
    assert_eq!(rt; made.given, 1);
    assert_eq!(rt; (first.snapshot(), second.snapshot()), ("s", "t"));
    let folder = "backupstore/volumes/7b/07/v/";
    let blocks = format!(in alloc; "{folder}blocks/")?;
    assert_eq!(rt; target.list(&blocks)?.len(), 3);
    assert_eq!(rt; target.objects.len(), 6);
    restores(&rt, alloc, &mut target, "b1", &FIRST)?;
    restores(&rt, alloc, &mut target, "b2", &SECOND)
}

#[test]
fn a_backup_that_exists_is_left(rt: HostRuntime) -> Result<(), Fail> {
    let alloc = rt.alloc();
    let mut target = NoFaultTarget::new(alloc);
    make_two(&rt, alloc, &mut target)?.second?;
    let again = make_two(&rt, alloc, &mut target)?;
    assert_eq!(rt; again.first.err(), Some(MakeError::Exists));
    assert_eq!(rt; again.second.err(), Some(MakeError::Exists));
    restores(&rt, alloc, &mut target, "b2", &SECOND)
}

#[test]
fn without_a_replica_no_backup_is_made(rt: HostRuntime) -> Result<(), Fail> {
    let (alloc, s) = (rt.alloc(), layer("s")?);
    let mut target = NoFaultTarget::new(alloc);
    let mut copies = Copies::new(alloc, s, &FIRST, layer("t")?)?;
    copies.has_none = true;
    let size = copies.size()?;
    let answer = make(
        &rt,
        alloc,
        &mut target,
        &plain("v")?,
        &plain("b1")?,
        &s,
        size,
        &time(alloc, "")?,
        &mut copies,
        None,
    );
    assert_eq!(rt; answer.err(), Some(MakeError::NoReplica));
    assert!(rt; target.objects.is_empty());
    Ok(())
}

#[test]
fn a_backup_with_a_damaged_block_is_not_restored(rt: HostRuntime) -> Result<(), Fail> {
    let alloc = rt.alloc();
    let mut target = NoFaultTarget::new(alloc);
    let made = make_two(&rt, alloc, &mut target)?;
    let list = made.first?;
    let Some(Some(checksum)) = list.blocks().get(2) else {
        return Err("no block".into());
    };
    let name = StoredObject::Block(*checksum).name(alloc, &plain("v")?)?;
    let mut bytes = disk_of(alloc, &[0x64])?;
    bytes[5000] = 1;
    target.hold(&name, &bytes)?;
    let mut sink = NoFaultSink::new(alloc, 1_000_000);
    let answer = restore(alloc, &mut target, &plain("v")?, &plain("b1")?, &mut sink);
    let Err(RestoreError::Refused(Refusal::Damaged, object)) = answer else {
        return Err("not refused as damaged".into());
    };
    assert_eq!(rt; object.name(alloc, &plain("v")?)?.as_str(), name.as_str());
    assert!(rt; sink.bytes().is_empty());
    Ok(())
}
