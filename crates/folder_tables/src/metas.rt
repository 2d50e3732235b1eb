use crate::told::same;
use chain_meta::{DiskMeta, ImageName, TimeText, VolumeMeta};
use std::alloc::Global;
use std::test::Fail;

/// The metadata of a snapshot that a user took, as it is written.
const SNAPSHOT: &str = "{\"Created\":\"\",\"Labels\":{},\"Name\":\"volume-snap-s.img\",\
    \"Parent\":\"\",\"Removed\":false,\"UserCreated\":true}";

/// The metadata of a volume whose head stands on it.
const VOLUME: &str = "{\"Dirty\":false,\"Error\":\"\",\"Head\":\"volume-head-001.img\",\
    \"Parent\":\"volume-snap-s.img\",\"Rebuilding\":false,\"SectorSize\":512,\"Size\":2097152}";

#[test]
fn the_metadata_of_a_snapshot_is_written(rt: HostRuntime) -> Result<(), Fail> {
    let meta = DiskMeta {
        created: TimeText::read(rt.alloc(), "")?.ok_or("no time")?,
        name: ImageName::snapshot(rt.alloc(), "s")?,
        parent: None,
        removed: false,
        user_created: true,
    };
    assert_eq!(rt; meta.write(rt.alloc())?.as_slice(), SNAPSHOT.as_bytes());
    Ok(())
}

#[test]
fn the_metadata_of_a_volume_is_written(rt: HostRuntime) -> Result<(), Fail> {
    let meta = VolumeMeta {
        dirty: false,
        rebuilding: false,
        failed: false,
        head: 1,
        parent: Some(ImageName::snapshot(rt.alloc(), "s")?),
        size: 2_097_152,
    };
    assert_eq!(rt; meta.write(rt.alloc())?.as_slice(), VOLUME.as_bytes());
    Ok(())
}

/// Texts of the same metadata: members in another order, some missing, one unknown.
const ALIKE: [&str; 3] = [
    SNAPSHOT,
    "{\"UserCreated\":true,\"Name\":\"volume-snap-s.img\",\"Parent\":\"\",\"Removed\":false,\"Labels\":null}",
    "{\"Removed\":false,\"Parent\":\"\",\"Name\":\"volume-snap-s.img\",\"UserCreated\":true,\"BackingFileName\":\"\",\"x\":[1]}",
];

#[test]
fn other_texts_of_a_snapshot_are_read_as_the_same(rt: HostRuntime) -> Result<(), Fail> {
    for (row, text) in ALIKE.iter().enumerate() {
        let meta = DiskMeta::read(rt.alloc(), text.as_bytes())?;
        same(
            &rt,
            row,
            &meta.write(rt.alloc())?.as_slice(),
            &SNAPSHOT.as_bytes(),
        );
    }
    Ok(())
}

#[test]
fn a_size_may_be_a_text(rt: HostRuntime) -> Result<(), Fail> {
    let text = "{\"Dirty\":false,\"Head\":\"volume-head-001.img\",\"Parent\":\"volume-snap-s.img\",\
        \"Rebuilding\":false,\"Size\":\"2097152\"}";
    let meta = VolumeMeta::read(rt.alloc(), text.as_bytes())?;
    assert_eq!(rt; meta.write(rt.alloc())?.as_slice(), VOLUME.as_bytes());
    Ok(())
}

/// Numbers of heads and their files.
const HEADS: [(u64, &str); 5] = [
    (0, "volume-head-000.img"),
    (7, "volume-head-007.img"),
    (42, "volume-head-042.img"),
    (999, "volume-head-999.img"),
    (1_000_000, "volume-head-1000000.img"),
];

#[test]
fn a_head_has_three_digits_at_least(rt: HostRuntime) -> Result<(), Fail> {
    for (row, (number, file)) in HEADS.iter().enumerate() {
        let name = ImageName::head(rt.alloc(), *number)?;
        same(&rt, row, &name.as_str(), file);
    }
    Ok(())
}

/// Whether the text is the name of an image.
fn is_read(alloc: Global, text: &str) -> Result<bool, Fail> {
    Ok(ImageName::read(alloc, text)?.is_some())
}

/// Texts, and whether each is the name of an image.
const NAMES: [(&str, bool); 9] = [
    ("volume-head-000.img", true),
    ("volume-head-00.img", false),
    ("volume-head-0000.img", false),
    ("volume-head-0100.img", false),
    ("volume-snap-a.img.img", true),
    ("volume-snap-sys-01.img", true),
    ("volume-snap-.img", false),
    ("volume-snap-a/b.img", false),
    ("volume-snap-a.img.map", false),
];

#[test]
fn names_of_images_are_read_by_their_grammar(rt: HostRuntime) -> Result<(), Fail> {
    for (row, (text, good)) in NAMES.iter().enumerate() {
        same(&rt, row, &is_read(rt.alloc(), text)?, good);
    }
    Ok(())
}
