use replica_node::BLOCK_BYTES;
use shelf_memory::NoFaultShelves;
use shelf_traits::Shelves;
use std::alloc::Global;
use std::test::Fail;

/// The files that are texts, of a replica whose head stands on `c`, with `a` below it and `b` beside it.
const TEXTS: [(&str, &str); 9] = [
    ("revision.counter", "7"),
    ("volume-head-004.img.map", "511 1\n"),
    (
        "volume-head-004.img.meta",
        "{\"Created\":\"2026-01-02\",\"Labels\":{},\"Name\":\"volume-head-004.img\",\
        \"Parent\":\"volume-snap-c.img\",\"Removed\":false,\"UserCreated\":false}",
    ),
    ("volume-snap-a.img.map", "3 2\n6 1\n"),
    (
        "volume-snap-a.img.meta",
        "{\"Created\":\"2026-01-02\",\"Labels\":{},\"Name\":\"volume-snap-a.img\",\
        \"Parent\":\"\",\"Removed\":false,\"UserCreated\":true}",
    ),
    ("volume-snap-b.img.map", "5 1\n"),
    (
        "volume-snap-b.img.meta",
        "{\"Created\":\"2026-01-02\",\"Labels\":{},\"Name\":\"volume-snap-b.img\",\
        \"Parent\":\"volume-snap-a.img\",\"Removed\":true,\"UserCreated\":true}",
    ),
    ("volume-snap-c.img.map", ""),
    (
        "volume-snap-c.img.meta",
        "{\"Created\":\"2026-01-02\",\"Labels\":{},\"Name\":\"volume-snap-c.img\",\
        \"Parent\":\"volume-snap-a.img\",\"Removed\":false,\"UserCreated\":true}",
    ),
];

/// The metadata of the volume.
pub const CLEAN: &str = "{\"Dirty\":false,\"Error\":\"\",\"Head\":\"volume-head-004.img\",\
    \"Parent\":\"volume-snap-c.img\",\"Rebuilding\":false,\"SectorSize\":512,\"Size\":2097152}";

/// The same of a replica that has failed.
pub const FAILED: &str = "{\"Dirty\":false,\"Error\":\"ERR\",\"Head\":\"volume-head-004.img\",\
    \"Parent\":\"volume-snap-c.img\",\"Rebuilding\":false,\"SectorSize\":512,\"Size\":2097152}";

/// The same while that is written.
pub const DIRTY: &str = "{\"Dirty\":true,\"Error\":\"ERR\",\"Head\":\"volume-head-004.img\",\
    \"Parent\":\"volume-snap-c.img\",\"Rebuilding\":false,\"SectorSize\":512,\"Size\":2097152}";

/// The images.
const IMAGES: [&str; 4] = [
    "volume-head-004.img",
    "volume-snap-a.img",
    "volume-snap-b.img",
    "volume-snap-c.img",
];

/// Their blocks, each of one byte; all others are zeros.
const BLOCKS: [(&str, u32, u8); 5] = [
    ("volume-snap-a.img", 3, 1),
    ("volume-snap-a.img", 4, 2),
    ("volume-snap-a.img", 6, 0),
    ("volume-snap-b.img", 5, 3),
    ("volume-head-004.img", 511, 4),
];

/// Puts the files of the fixed folder, with that metadata of the volume.
fn put_fixed(shelves: &mut impl Shelves, volume: &str) -> Result<(), Fail> {
    shelves.write_at(0, "volume.meta", 0, volume.as_bytes())?;
    for (file, text) in TEXTS {
        shelves.write_at(0, file, 0, text.as_bytes())?;
    }
    for image in IMAGES {
        shelves.set_len(0, image, 2_097_152)?;
    }
    for (image, block, byte) in BLOCKS {
        shelves.write_at(0, image, u64::from(block) * 4096, &[byte; BLOCK_BYTES])?;
    }
    Ok(())
}

/// The fixed folder, with that metadata of the volume.
pub fn fixed_folder(alloc: Global, volume: &str) -> Result<NoFaultShelves, Fail> {
    let mut shelves = NoFaultShelves::new(alloc);
    put_fixed(&mut shelves, volume)?;
    Ok(shelves)
}

/// A head of another number, metadata without an image, and a file that is none of a replica's.
pub fn put_older_files(shelves: &mut impl Shelves) -> Result<(), Fail> {
    shelves.write_at(0, "volume-head-000.img", 0, b"x")?;
    shelves.write_at(0, "volume-snap-old.img.meta", 0, b"{}")?;
    shelves.write_at(0, "revision.counter", 0, b"7")?;
    Ok(())
}
