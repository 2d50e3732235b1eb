use crate::fixed::{CLEAN, DIRTY, FAILED, fixed_folder};
use crate::hollow::HollowShelves;
use crate::replica::{keep, meta, replica, save_on, save_over_older, size};
use chain_meta::{DiskMeta, ImageName};
use folder_names::{map_file, meta_file};
use outer_memory::FaultPlan;
use replica_compare::compare;
use replica_node::ReplicaNode;
use replica_open::{Flag, Opened, open};
use replica_shelf::{HeadMeta, save};
use shelf_memory::{MemoryShelves, NoFaultShelves};
use shelf_traits::{OuterError, Shelves};
use std::alloc::Global;
use std::process::Abort;
use std::test::Fail;
use vol_units::{TimeText, VolumeSize};

/// The replica, where that is one.
fn replica_of(opened: Opened) -> Result<ReplicaNode, Fail> {
    match opened {
        Opened::Clean(node, _) => Ok(node),
        Opened::Unclean(_) => Err(Fail::new("unclean")),
        Opened::Damaged(_) => Err(Fail::new("damaged")),
    }
}

/// The replica that the folder is.
fn opened<S: Shelves>(alloc: Global, shelves: &mut S) -> Result<ReplicaNode, Fail> {
    replica_of(open(alloc, size()?, 0, shelves)?)
}

/// The folder opens as the replica.
pub fn opens_as(
    rt: &impl Abort,
    alloc: Global,
    node: &ReplicaNode,
    shelves: &mut impl Shelves,
) -> Result<(), Fail> {
    assert!(rt; compare(node, &opened(alloc, shelves)?).is_none());
    Ok(())
}

/// The folder is unclean by that.
pub fn is_flagged(opened: Opened, flag: Flag) -> bool {
    match opened {
        Opened::Unclean(found) => found == flag,
        Opened::Clean(_, _) | Opened::Damaged(_) => false,
    }
}

/// The file is damaged, and that is the place.
fn is_damaged(opened: Opened, file: &str, place: u64) -> bool {
    match opened {
        Opened::Damaged(damage) => damage.file.as_str() == file && damage.place == place,
        Opened::Clean(_, _) | Opened::Unclean(_) => false,
    }
}

#[test]
fn what_was_saved_is_opened(rt: HostRuntime) -> Result<(), Fail> {
    let (alloc, node) = (rt.alloc(), replica(rt.alloc())?);
    let mut shelves = NoFaultShelves::new(alloc);
    save_over_older(alloc, &node, &mut shelves)?;
    opens_as(&rt, alloc, &node, &mut shelves)
}

#[test]
fn a_folder_of_an_earlier_version_is_opened(rt: HostRuntime) -> Result<(), Fail> {
    let (alloc, node) = (rt.alloc(), replica(rt.alloc())?);
    opens_as(&rt, alloc, &node, &mut fixed_folder(alloc, CLEAN)?)
}

/// The file holds that text, or is gone.
fn change(shelves: &mut impl Shelves, file: &str, text: Option<&str>) -> Result<(), Fail> {
    shelves.remove(0, file)?;
    if let Some(text) = text {
        shelves.write_at(0, file, 0, text.as_bytes())?;
    }
    Ok(())
}

/// What another program may tell of the fixed folder's head.
const HEAD: &str = "{\"Created\":\"2020-02-29\",\"Labels\":{},\"Name\":\"volume-head-004.img\",\
    \"Parent\":\"volume-snap-c.img\",\"Removed\":false,\"UserCreated\":true}";

/// The fixed folder, of whose head that is told.
fn folder_of_head(alloc: Global, file: &str) -> Result<NoFaultShelves, Fail> {
    let mut shelves = fixed_folder(alloc, CLEAN)?;
    change(&mut shelves, file, Some(HEAD))?;
    Ok(shelves)
}

/// The folder of the replica, saved with what is told of its head.
fn saved_with(alloc: Global, node: &ReplicaNode, head: &HeadMeta) -> Result<NoFaultShelves, Fail> {
    let (mut saved, mut told) = (NoFaultShelves::new(alloc), meta(alloc, false)?);
    told.head = head.copied(alloc)?;
    save(alloc, node, &told, 0, &mut saved)?;
    Ok(saved)
}

#[test]
fn a_head_that_was_opened_keeps_what_is_told_of_it(rt: HostRuntime) -> Result<(), Fail> {
    let (alloc, file) = (rt.alloc(), "volume-head-004.img.meta");
    let mut shelves = folder_of_head(alloc, file)?;
    let Opened::Clean(node, head) = open(alloc, size()?, 0, &mut shelves)? else {
        return Err(Fail::new("no replica"));
    };
    assert_eq!(rt;
        (head.created.as_str(), head.user_created),
        ("2020-02-29", true)
    );
    let mut saved = saved_with(alloc, &node, &head)?;
    assert_eq!(rt; saved.held(0, file), Some(HEAD.as_bytes()));
    opens_as(&rt, alloc, &node, &mut saved)
}

/// Whether the fixed folder, with that metadata of the volume, is unclean by that.
fn is_left(alloc: Global, size: VolumeSize, volume: &str, flag: Flag) -> Result<bool, Fail> {
    let mut shelves = fixed_folder(alloc, volume)?;
    Ok(is_flagged(open(alloc, size, 0, &mut shelves)?, flag))
}

#[test]
fn a_folder_that_was_left_so_is_unclean(rt: HostRuntime) -> Result<(), Fail> {
    let alloc = rt.alloc();
    assert!(rt; is_left(alloc, size()?, DIRTY, Flag::Dirty)?);
    assert!(rt; is_left(alloc, size()?, FAILED, Flag::Error)?);
    let larger = VolumeSize::new(4_194_304)?;
    assert!(rt; is_left(alloc, larger, CLEAN, Flag::Size)?);
    Ok(())
}

/// The fixed folder with one file changed or gone, and the file and the place that are told.
const DAMAGED: [(&str, Option<&str>, &str, u64); 9] = [
    ("volume.meta", None, "volume.meta", 0),
    ("volume.meta", Some("{}"), "volume.meta", 0),
    (
        "volume-head-004.img.meta",
        None,
        "volume-head-004.img.meta",
        0,
    ),
    (
        "volume-head-004.img.map",
        None,
        "volume-head-004.img.map",
        0,
    ),
    ("volume-head-004.img", None, "volume-head-004.img", 0),
    (
        "volume-snap-a.img.map",
        Some("3 2\n5 1\n"),
        "volume-snap-a.img.map",
        4,
    ),
    ("volume-snap-b.img", Some("short"), "volume-snap-b.img", 5),
    (
        "volume-snap-c.img.meta",
        Some("{}"),
        "volume-snap-c.img.meta",
        0,
    ),
    (
        "volume-snap-sys-1.img.meta",
        Some("{}"),
        "volume-snap-sys-1.img.meta",
        0,
    ),
];

/// What the fixed folder opens as where that file is changed or gone.
fn opened_but(alloc: Global, file: &str, text: Option<&str>) -> Result<Opened, Fail> {
    let mut shelves = fixed_folder(alloc, CLEAN)?;
    change(&mut shelves, file, text)?;
    Ok(open(alloc, size()?, 0, &mut shelves)?)
}

#[test]
fn a_file_that_is_damaged_is_told(rt: HostRuntime) -> Result<(), Fail> {
    for (file, text, told, place) in DAMAGED.iter() {
        let found = opened_but(rt.alloc(), file, *text)?;
        assert!(rt; is_damaged(found, told, *place), "{file}");
    }
    Ok(())
}

/// What is told of a snapshot on that parent.
fn snapshot_meta(alloc: Global, image: &str, parent: &str) -> Result<DiskMeta, Fail> {
    Ok(DiskMeta {
        created: TimeText::read(alloc, "")?.ok_or("no time")?,
        name: ImageName::read(alloc, image)?.ok_or("no image")?,
        parent: ImageName::read(alloc, parent)?,
        removed: false,
        user_created: false,
    })
}

/// A file of zeros, in place of the one that there may be.
fn put_zeros(shelves: &mut impl Shelves, file: &str, length: u32) -> Result<(), Fail> {
    shelves.remove(0, file)?;
    Ok(shelves.set_len(0, file, u64::from(length))?)
}

/// A file of these bytes, in place of the one that there may be.
fn put_bytes(shelves: &mut impl Shelves, file: &str, bytes: &[u8]) -> Result<(), Fail> {
    shelves.remove(0, file)?;
    Ok(shelves.write_at(0, file, 0, bytes)?)
}

/// A snapshot without a block, on that parent, in place of the one that there may be.
fn put_snapshot(
    shelves: &mut impl Shelves,
    alloc: Global,
    image: &str,
    parent: &str,
) -> Result<(), Fail> {
    let meta = snapshot_meta(alloc, image, parent)?;
    put_zeros(shelves, image, 2_097_152)?;
    put_zeros(shelves, map_file(alloc, &meta.name)?.as_str(), 0)?;
    let told = meta.write(alloc)?;
    put_bytes(
        shelves,
        meta_file(alloc, &meta.name)?.as_str(),
        told.as_slice(),
    )
}

/// The parent that a snapshot of the fixed folder is given, and the file that is told.
const MISFITS: [(&str, &str, &str); 6] = [
    (
        "volume-snap-a.img",
        "volume-snap-c.img",
        "volume-snap-a.img.meta",
    ),
    (
        "volume-snap-b.img",
        "volume-snap-b.img",
        "volume-snap-b.img.meta",
    ),
    (
        "volume-snap-b.img",
        "volume-snap-d.img",
        "volume-snap-b.img.meta",
    ),
    (
        "volume-snap-b.img",
        "volume-head-004.img",
        "volume-snap-b.img.meta",
    ),
    ("volume-snap-sys-4.img", "", "volume-snap-sys-4.img.meta"),
    ("volume-snap-sys-03.img", "", "volume-snap-sys-03.img.meta"),
];

/// What the fixed folder opens as with such a snapshot.
fn opened_with(alloc: Global, image: &str, parent: &str) -> Result<Opened, Fail> {
    let mut shelves = fixed_folder(alloc, CLEAN)?;
    put_snapshot(&mut shelves, alloc, image, parent)?;
    Ok(open(alloc, size()?, 0, &mut shelves)?)
}

#[test]
fn a_layer_that_cannot_stand_is_told(rt: HostRuntime) -> Result<(), Fail> {
    let alloc = rt.alloc();
    for (image, parent, told) in MISFITS.iter() {
        let found = opened_with(alloc, image, parent)?;
        assert!(rt; is_damaged(found, told, 0), "{image}");
    }
    replica_of(opened_with(alloc, "volume-snap-sys-3.img", "volume-snap-b.img")?)?;
    Ok(())
}

/// Whether the fixed folder opens where the call of that number is to fail. If not, that call failed, and no other.
fn opens_but(
    rt: &impl Abort,
    alloc: Global,
    shelves: &mut MemoryShelves,
    call: u64,
) -> Result<bool, Fail> {
    shelves.plan = FaultPlan::new(Vec::from_slice(alloc, &[call])?);
    match open(alloc, size()?, 0, shelves) {
        Err(error) => assert_eq!(rt; error, OuterError::Failed, "at call {call}"),
        Ok(Opened::Clean(_, _)) => return Ok(true),
        Ok(_) => return Err(Fail::new("no replica")),
    }
    assert_eq!(rt; shelves.faults, call);
    Ok(false)
}

#[test]
fn each_call_of_an_open_may_fail(rt: HostRuntime) -> Result<(), Fail> {
    let alloc = rt.alloc();
    let mut shelves = MemoryShelves::new(alloc, FaultPlan::new(Vec::new(alloc)));
    shelves.shelves = fixed_folder(alloc, CLEAN)?;
    // The last plan fails none: there are not so many calls.
    for call in 1..60u64 {
        if opens_but(&rt, alloc, &mut shelves, call)? {
            return Ok(());
        }
    }
    Err(Fail::new("too many calls"))
}

/// Names of all characters that there may be, one of the longest among them.
const NAMES: [&str; 4] = [
    "abcdefghijklmnopqrstuvwxyzABCDEFGHIJKLMNOPQRSTUVWXYZ0123456789._",
    "-.",
    "Sys-1",
    "_",
];

#[test]
fn names_of_all_characters_are_opened(rt: HostRuntime) -> Result<(), Fail> {
    let alloc = rt.alloc();
    let mut node = ReplicaNode::blank(alloc, size()?)?;
    for name in NAMES.iter() {
        keep(&mut node, alloc, name.as_bytes())?;
    }
    let mut shelves = NoFaultShelves::new(alloc);
    save_on(alloc, &node, &mut shelves)?;
    opens_as(&rt, alloc, &node, &mut shelves)
}

/// The last digit of a number.
fn digit(number: u32) -> u8 {
    b'0' + (number % 10) as u8
}

/// A replica of as many layers as there may be.
fn deepest(alloc: Global) -> Result<ReplicaNode, Fail> {
    let mut node = ReplicaNode::blank(alloc, size()?)?;
    for number in 0..249 {
        let name = [digit(number / 100), digit(number / 10), digit(number)];
        keep(&mut node, alloc, &name)?;
    }
    Ok(node)
}

#[test]
fn a_folder_of_250_layers_is_opened_and_no_more(rt: HostRuntime) -> Result<(), Fail> {
    let alloc = rt.alloc();
    let mut shelves = HollowShelves::new(alloc);
    save_on(alloc, &deepest(alloc)?, &mut shelves)?;
    assert_eq!(rt; opened(alloc, &mut shelves)?.layer_count(), 250);
    put_snapshot(&mut shelves, alloc, "volume-snap-x.img", "")?;
    let found = open(alloc, size()?, 0, &mut shelves)?;
    assert!(rt; is_damaged(found, "volume-snap-x.img.meta", 0));
    Ok(())
}
