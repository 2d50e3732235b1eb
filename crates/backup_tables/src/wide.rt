ghost use Rattle.std.specs.Prelude.{◌<◌, length};

use crate::copies::disk_of;
use crate::made::{Restored, plain, restore_to, time};
use backup_config::{BackupCfg, BackupList, Checksum};
use backup_units::cfg_name;
use block_store::put_block;
use outer_traits::{Outer, Sink};
use std::test::Fail;
use target_memory::NoFaultTarget;

/// What pages are filled with, again and again. Most are zeros, since each block that is listed is digested twice.
const FILLS: [u8; 8] = [7, 0, 0, 9, 0, 0, 0, 5];

/// A sink that looks at what it is given, piece by piece, and keeps none of it.
#[derive(Drop)]
struct Pages {
    /// What the pages hold, again and again.
    wanted: Vec<Vec<u8>>,
    /// How many bytes came as they were wanted.
    good: usize,
}

impl Sink for Pages {
    ghost use Rattle.std.specs.Prelude.{None};

    ghost contents = { λ _. None };

    ghost faults = { λ _. 0 };

    fn write(&mut self, bytes: &[u8]) -> Outer<usize> {
        let count = self.wanted.len();
        if count > 0 {
            let page = self.wanted[self.good / 2_097_152 % count].as_slice();
            let (_, rest) = page.split_at((self.good % 2_097_152).min(page.len()));
            if rest.starts_with(bytes) {
                self.good = self.good.saturating_add(bytes.len());
            }
        }
        Ok(bytes.len())
    }
}

/// Lists these blocks again and again.
fn list_all(blocks: &mut [Option<Checksum>], listed: &[Option<Checksum>])
    requires { 0 < length listed.now }
{
    for page in 0..blocks.len() {
        blocks[page] = listed[page % listed.len()];
    }
}

#[test]
fn a_disk_of_the_largest_size_is_restored(rt: HostRuntime) -> Result<(), Fail> {
    let (alloc, volume, name) = (rt.alloc(), plain("v")?, plain("b")?);
    let mut target = NoFaultTarget::new(alloc);
    let mut wanted = Vec::new(alloc);
    let mut listed = Vec::new(alloc);
    for fill in FILLS {
        let page = disk_of(alloc, &[fill])?;
        if fill > 0 {
            put_block(alloc, &mut target, &volume, &page)?;
            listed.push(Some(Checksum::of(&page)))?;
        } else {
            listed.push(None)?;
        }
        wanted.push(page)?;
    }
    assert_eq!(rt; listed.len(), 8);
    let mut blocks = vec![in alloc; None; 512]?;
    list_all(&mut blocks, &listed);
    let cfg = BackupCfg {
        volume,
        name,
        created: time(alloc, "")?,
        list: BackupList::new(String::from_str(alloc, "s")?, blocks),
    };
    let text = cfg.write(alloc)?;
    target.hold(&cfg_name(alloc, &volume, &name)?, &text)?;
    let mut sink = Pages { wanted, good: 0 };
    assert_eq!(rt;
        restore_to(alloc, &mut target, "b", &mut sink)?,
        Restored::Whole
    );
    assert_eq!(rt; sink.good, 512 * 2_097_152);
    Ok(())
}
