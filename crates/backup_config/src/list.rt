ghost use Rattle.std.specs.Prelude.{◌≡◌, ◌↔◌, ◌*◌, ◌<◌, length, string_bytes, IfOk, IsTrue, All};
ghost use Rattle.vol_units.specs.Size.{IsVolumeSize};
ghost use Rattle.backup_units.specs.Blocks.{page_bytes};
ghost use Rattle.backup_config.specs.Lists.{size_of, AreOnce, pages_of};

use backup_units::Checksum;
use std::alloc::{AllocError, Global};
use std::collections::BTreeSet;
use std::marker::Model;

/// A page whose block is listed.
#[derive(Clone, Copy, Debug)]
pub struct ListedBlock {
    /// The page, from 0.
    pub page: u64,
    pub checksum: Checksum,
}

/// What a backup lists: the name of its snapshot, and for each page of 2 MiB of its disk the checksum of the page's
/// block, or none where the page is all zeros. So the disk has as many pages as there are entries. A contract sees it as a
/// record of both.
#[derive(Debug, Drop)]
pub struct BackupList {
    snapshot: String,
    blocks: Vec<Option<Checksum>>,
}

impl Model for BackupList {
    ghost use Rattle.std.specs.Prelude.{◌*◌, length, string_bytes};
    ghost use Rattle.vol_units.specs.Size.{IsVolumeSize};
    ghost use Rattle.backup_units.specs.Blocks.{page_bytes};
    ghost use Rattle.backup_config.specs.Lists.{Listing};

    ghost Value = { Listing };

    ghost view = { λ l. record { snapshot = string_bytes l.snapshot; blocks = l.blocks.items } };

    ghost invariant = { λ l. IsVolumeSize (length l.blocks.items * page_bytes) };
}

impl BackupList {
    /// The list of a disk of that many pages. The name of the snapshot is any text.
    pub fn new(snapshot: String, blocks: Vec<Option<Checksum>>) -> BackupList
        requires { IsVolumeSize (length blocks.items * page_bytes) }
        ensures { result ≡ record { snapshot = string_bytes snapshot; blocks = blocks.items } }
    {
        BackupList { snapshot, blocks }
    }

    /// The name of the snapshot.
    pub fn snapshot(&self) -> &str
        ensures { result.now ≡ self.now.snapshot }
    {
        self.snapshot.as_str()
    }

    /// What is listed of each page.
    pub fn blocks(&self) -> &[Option<Checksum>]
        ensures value { result.now ≡ self.now.blocks }
        ensures size { IsVolumeSize (size_of self.now) }
    {
        &self.blocks
    }
}

/// What is listed of so many pages.
pub(crate) fn pages_of(
    alloc: Global,
    count: usize,
    listed: &[ListedBlock],
) -> Result<Vec<Option<Checksum>>, AllocError>
    requires { All (λ b. b.page < count) listed.now }
    ensures { IfOk result (λ blocks. blocks.items ≡ pages_of count listed.now) }
{
    let mut blocks = vec![in alloc; None; count]?;
    // From the last block on, so that what stands is always the list of the blocks behind.
    for i in 0..listed.len() {
        let block = listed[listed.len() - 1 - i];
        blocks[block.page as usize] = Some(block.checksum);
    }
    Ok(blocks)
}

/// Whether no page is listed twice. A list that someone made to be slow has thousands of blocks, and none need lie within
/// the disk: so the pages before are looked up in a set, and not one by one.
pub(crate) fn are_once(alloc: Global, listed: &[ListedBlock]) -> Result<bool, AllocError>
    ensures { IfOk result (λ once. IsTrue once ↔ AreOnce listed.now) }
{
    let mut seen = BTreeSet::new(alloc);
    for block in listed {
        let is_new = seen.insert(block.page)?;
        if !is_new {
            return Ok(false);
        }
    }
    Ok(true)
}
