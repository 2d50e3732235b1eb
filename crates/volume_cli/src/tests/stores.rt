//! What is asked of a store of backups.
ghost use Rattle.std.specs.Prelude.{◌≡◌, ◌<◌, ◌-◌, ◌^◌, IfOk};

use super::runs::ends_over;
use crate::status::Status;
use door_memory::NoFaultDoors;
use outer_memory::{NoFaultSink, NoFaultSource};
use outer_real::OpenGate;
use shelf_memory::NoFaultShelves;
use std::alloc::{AllocError, Global};
use std::process::Abort;
use std::sync::Wait;
use std::test::Fail;
use std::thread::Threads;
use target_memory::NoFaultTarget;
use target_traits::Target;

/// A block of 4,096 bytes `61` and zeros behind them.
const BLOCK: &str = "backupstore/volumes/7b/07/v/blocks/4a/9f/\
    4a9f57490812dc05ac2f1db013433a0a7fc5341777cc237c4e00a13ffc5d449a.blk";

/// The cfg of a backup that lists it.
const WITH_BLOCK: &str = "{\"Blocks\":[{\"BlockChecksum\":\
    \"4a9f57490812dc05ac2f1db013433a0a7fc5341777cc237c4e00a13ffc5d449a\",\"Offset\":0}],\
    \"CompressionMethod\":\"none\",\"CreatedTime\":\"\",\"DiskSize\":\"2097152\",\"Name\":\"b1\",\
    \"Size\":\"2097152\",\"SnapshotName\":\"s\",\"VolumeName\":\"v\"}";

/// One that lists it twice.
const TWICE: &str = "{\"Blocks\":[{\"BlockChecksum\":\
    \"4a9f57490812dc05ac2f1db013433a0a7fc5341777cc237c4e00a13ffc5d449a\",\"Offset\":0},\
    {\"BlockChecksum\":\
    \"4a9f57490812dc05ac2f1db013433a0a7fc5341777cc237c4e00a13ffc5d449a\",\"Offset\":0}],\
    \"CompressionMethod\":\"none\",\"DiskSize\":\"2097152\",\"Name\":\"b1\",\
    \"SnapshotName\":\"s\",\"VolumeName\":\"v\"}";

/// The cfg of a backup of zeros, and one of a backup that is compressed.
const ZEROS: &str =
    "{\"Blocks\":[],\"CompressionMethod\":\"none\",\"DiskSize\":\"2097152\",\"Name\":\"b0\",\
    \"SnapshotName\":\"s\",\"VolumeName\":\"v\"}";

const PACKED: &str =
    "{\"CompressionMethod\":\"lz4\",\"Name\":\"b2\",\"SnapshotName\":\"s\",\"VolumeName\":\"v\"}";

/// The cfg of a backup that does not tell its size, and one of a volume on a backing image.
const UNSIZED: &str =
    "{\"CompressionMethod\":\"none\",\"Name\":\"b3\",\"SnapshotName\":\"s\",\"VolumeName\":\"v\"}";

const BACKED: &str = "{\"BackingImageName\":\"image\",\"Name\":\"v\",\"Size\":2097152}";

const B0: &str = "backupstore/volumes/7b/07/v/backups/backup_b0.cfg";

const B1: &str = "backupstore/volumes/7b/07/v/backups/backup_b1.cfg";

const B2: &str = "backupstore/volumes/7b/07/v/backups/backup_b2.cfg";

const B3: &str = "backupstore/volumes/7b/07/v/backups/backup_b3.cfg";

const VOLUME: &str = "backupstore/volumes/7b/07/v/volume.cfg";

/// A page whose first 4,096 bytes are these.
pub(crate) fn page_of(alloc: Global, byte: u8) -> Result<Vec<u8>, AllocError> {
    let mut page = Vec::with_capacity(alloc, 2_097_152)?;
    page.resize(4_096, byte)?;
    page.resize(2_097_152, 0)?;
    Ok(page)
}

/// A store of two backups of the volume `v`.
fn store(alloc: Global) -> Result<NoFaultTarget, AllocError> {
    let mut target = NoFaultTarget::new(alloc);
    target.hold(B0, ZEROS.as_bytes())?;
    target.hold(B1, WITH_BLOCK.as_bytes())?;
    target.hold(BLOCK, &page_of(alloc, b'a')?)?;
    Ok(target)
}

/// How the words end over a target, and the sink then.
pub(crate) fn answer<T: Target + Send>(
    rt: &(impl AllocGlobal + Threads + Wait + Sync),
    words: &[&str],
    target: &mut T,
) -> Result<(Status, NoFaultSink), AllocError>
    requires { T.faults target.old < 2 ^ 64 - 1 }
    ensures { IfOk result (λ ended. ended.0 ≡ Status.Done
        → T.faults target.new ≡ T.faults target.old) }
{
    let mut sink = NoFaultSink::new(rt.alloc(), 70_000);
    let status = ends_over(
        rt,
        words,
        &mut NoFaultSource::new(Vec::new(rt.alloc()), 1),
        &mut sink,
        &mut NoFaultShelves::new(rt.alloc()),
        target,
        &OpenGate,
        &mut NoFaultDoors { alloc: rt.alloc() },
    )?;
    Ok((status, sink))
}

/// Compares the note and the code of how the words end.
pub(crate) fn is_told<T: Target + Send>(
    rt: &(impl AllocGlobal + Abort + Threads + Wait + Sync),
    words: &[&str],
    target: &mut T,
    note: &str,
    code: u8,
) -> Result<NoFaultSink, AllocError>
    requires { T.faults target.old < 2 ^ 64 - 1 }
{
    let (status, sink) = answer(rt, words, target)?;
    assert_eq!(rt; status.to_string(rt.alloc())?.as_str(), note);
    assert_eq!(rt; status.code(), code);
    Ok(sink)
}

#[test]
fn backups_are_restored_and_listed(rt: HostRuntime) -> Result<(), Fail> {
    let mut target = store(rt.alloc())?;
    let sink = is_told(&rt, &["restore", "b1", "v"], &mut target, "", 0)?;
    assert!(rt; sink.bytes() == page_of(rt.alloc(), b'a')?.as_slice());
    let sink = is_told(&rt, &["restore", "b0", "v"], &mut target, "", 0)?;
    assert!(rt; sink.bytes() == page_of(rt.alloc(), 0)?.as_slice());
    let sink = is_told(&rt, &["backups", "v"], &mut target, "", 0)?;
    assert_eq!(rt; sink.bytes(), b"backup b0 s 0\nbackup b1 s 1\n".as_slice());
    let sink = is_told(&rt, &["backups", "w"], &mut target, "", 0)?;
    assert_eq!(rt; sink.bytes(), b"".as_slice());
    Ok(())
}

/// Compares which object is refused, where nothing is written.
fn is_refused(
    rt: &(impl AllocGlobal + Abort + Threads + Wait + Sync),
    words: &[&str],
    target: &mut NoFaultTarget,
    kind: &str,
    name: &str,
) -> Result<(), Fail> {
    let note = format!(in rt.alloc(); "refused {kind} {name}")?;
    let sink = is_told(rt, words, target, note.as_str(), 10)?;
    assert_eq!(rt; sink.bytes(), b"".as_slice());
    Ok(())
}

#[test]
fn the_first_object_that_is_bad_is_refused(rt: HostRuntime) -> Result<(), Fail> {
    let mut target = store(rt.alloc())?;
    let list = ["backups", "v"];
    is_refused(
        &rt,
        &["restore", "b9", "v"],
        &mut target,
        "missing",
        "backupstore/volumes/7b/07/v/backups/backup_b9.cfg",
    )?;
    target.hold(BLOCK, &page_of(rt.alloc(), b'b')?)?;
    is_refused(&rt, &["restore", "b1", "v"], &mut target, "damaged", BLOCK)?;
    target.take_away(BLOCK);
    is_refused(&rt, &["restore", "b1", "v"], &mut target, "missing", BLOCK)?;
    target.hold(B1, TWICE.as_bytes())?;
    is_refused(&rt, &["restore", "b1", "v"], &mut target, "syntax", B1)?;
    target.hold(B1, WITH_BLOCK.as_bytes())?;
    target.hold(B3, UNSIZED.as_bytes())?;
    is_refused(&rt, &list, &mut target, "missing", VOLUME)?;
    target.hold(VOLUME, BACKED.as_bytes())?;
    is_refused(&rt, &["restore", "b3", "v"], &mut target, "backing", VOLUME)?;
    target.hold(B2, PACKED.as_bytes())?;
    is_refused(&rt, &list, &mut target, "compressed", B2)?;
    target.hold(B0, b"{}")?;
    is_refused(&rt, &list, &mut target, "syntax", B0)
}
