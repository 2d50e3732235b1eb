ghost use Rattle.std.specs.Prelude.{◌≡◌, ◌<◌, ◌≤◌, ◌++◌, ℕ, Option, Ok, map, length, IfOk};
ghost use Rattle.serde_json.specs.View.{view};
ghost use Rattle.serde_json.specs.Written.{compact_text};
ghost use Rattle.digest.specs.Digest.{IsDigest};
ghost use Rattle.backup_config.specs.Answers.{largest_cfg, FindsAs, IsOrNoMemory};
ghost use Rattle.backup_config.specs.BackupCfgs.{backup_data, block_data, HasMembers, answer_of, members_of, IsComplete};
ghost use Rattle.backup_config.specs.BackupCfgs.{SaysBackup, IsOnlyBackup, IsGoodBackup};
ghost use Rattle.backup_config.specs.Lists.{listed_from, one_listed, IsEntry, AreEntries};

use crate::error::{CfgError, CfgMember};
use crate::list::{BackupList, ListedBlock, are_once, pages_of};
use crate::members;
use backup_units::{Checksum, PAGE_LENGTH};
use itoa::Buffer;
use serde_json::{Value, json};
use std::alloc::{AllocError, Global};
use vol_units::{PlainName, TimeText, VolumeSize};

/// The most bytes of a cfg that is read.
pub const LONGEST_CFG: usize = 1_048_576;

/// What the cfg of a backup says.
#[derive(Debug, Drop)]
pub struct BackupCfg {
    pub volume: PlainName,
    pub name: PlainName,
    /// When it was made.
    pub created: TimeText,
    pub list: BackupList,
}

/// The members of the cfg of a backup, of which some may be missing.
#[derive(Debug, Drop)]
pub struct BackupMembers {
    pub named: bool,
    pub of_volume: bool,
    pub snapshot: Option<String>,
    pub created: TimeText,
    pub blocks: Vec<ListedBlock>,
    pub size: Option<VolumeSize>,
    pub compressed: bool,
}

impl BackupCfg {
    /// The cfg as compact JSON, its members in the order of their names.
    pub fn write(&self, alloc: Global) -> Result<Vec<u8>, AllocError>
        ensures text { IfOk result (λ bytes. bytes.items ≡ compact_text (backup_data self.now)) }

        // The text is short enough to be read, where the snapshot's is a layer's name.
        ensures short { IfOk result (λ bytes. length self.now.list.snapshot ≤ 64 → length bytes.items ≤ largest_cfg) }

        // What was written is read as the same, whatever is told elsewhere.
        ensures reads_back { IfOk result (λ bytes.
            (told : Option ℕ) → length bytes.items ≤ largest_cfg
            → SaysBackup self.now.volume self.now.name told bytes.items (Ok self.now)) }
    {
        let value = self.value(alloc)?;
        value.to_vec(alloc)
    }

    fn value(&self, alloc: Global) -> Result<Value, AllocError>
        ensures value { IfOk result (λ v. view v ≡ backup_data self.now) }
        ensures good { IfOk result (λ _. IsGoodBackup self.now) }
    {
        let blocks = block_values(alloc, self.list.blocks())?;
        let mut digits = Buffer::new();
        let size = digits.format(self.list.blocks().len() * PAGE_LENGTH);
        let mut more_digits = Buffer::new();
        let stored = more_digits.format(blocks.len() * PAGE_LENGTH);
        json!(in alloc; {
            "Blocks": Value::Array(blocks),
            "CompressionMethod": "none",
            "CreatedTime": self.created.as_str(),
            "DiskSize": size,
            "Name": members::text_of(&self.name),
            "Size": stored,
            "SnapshotName": self.list.snapshot(),
            "VolumeName": members::text_of(&self.volume)
        })
    }

    /// What the bytes say of that backup of that volume, their members in whatever order, and others beside them. A cfg
    /// without a size is refused as such, unless `disk` gives it, which is the size that the volume's cfg tells.
    pub fn read(
        alloc: Global,
        bytes: &[u8],
        volume: &PlainName,
        backup: &PlainName,
        disk: Option<u64>,
    ) -> Result<BackupCfg, CfgError>
        ensures says { SaysBackup volume.now backup.now disk bytes.now result }

        // But for want of memory no other answer is true of the bytes.
        ensures only { IsOnlyBackup volume.now backup.now disk bytes.now result }
    {
        read_backup(alloc, bytes, volume, backup, disk)
    }
}

fn block_values(alloc: Global, blocks: &[Option<Checksum>]) -> Result<Vec<Value>, AllocError>
    requires { length blocks.now ≤ 512 }
    ensures values { IfOk result (λ values. map view values.items ≡ map block_data (listed_from 0 blocks.now)) }
    ensures count { IfOk result (λ values. length values.items ≡ length (listed_from 0 blocks.now)) }
    ensures most { IfOk result (λ values. length values.items ≤ 512) }
    ensures good { IfOk result (λ _. AreEntries blocks.now) }
{
    let mut values = Vec::new(alloc);
    for (page, listed) in blocks.iter().enumerate() {
        push_block(alloc, &mut values, page, listed)?;
    }
    Ok(values)
}

fn push_block(
    alloc: Global,
    values: &mut Vec<Value>,
    page: usize,
    listed: &Option<Checksum>,
) -> Result<(), AllocError>
    requires { page < 512 }
    ensures value { IfOk result (λ _.
        map view values.new.items ≡ map view values.old.items ++ map block_data (one_listed page listed.now)) }
    ensures good { IfOk result (λ _. IsEntry listed.now) }
{
    match listed {
        None => Ok(()),
        Some(checksum) => {
            let value = block_value(alloc, page, checksum)?;
            Ok(values.push(value)?)
        }
    }
}

fn block_value(alloc: Global, page: usize, checksum: &Checksum) -> Result<Value, AllocError>
    requires { page < 512 }
    ensures value { IfOk result (λ v. view v ≡ block_data (record { page = page; checksum = checksum.now })) }
    ensures good { IfOk result (λ _. IsDigest checksum.now) }
{
    json!(in alloc; { "BlockChecksum": checksum.as_str(), "Offset": page * PAGE_LENGTH })
}

fn read_backup(
    alloc: Global,
    bytes: &[u8],
    volume: &PlainName,
    backup: &PlainName,
    disk: Option<u64>,
) -> Result<BackupCfg, CfgError>
    ensures { SaysBackup volume.now backup.now disk bytes.now result }
{
    if bytes.len() > LONGEST_CFG {
        return Err(CfgError::Syntax);
    }
    let value = Value::from_slice(alloc, bytes)?;
    if !value.is_object() {
        return Err(CfgError::Syntax);
    }
    match members_in(alloc, &value, volume, backup, disk) {
        Ok(members) => complete(alloc, members, volume, backup),
        Err(e) => Err(e),
    }
}

fn members_in(
    alloc: Global,
    cfg: &Value,
    volume: &PlainName,
    backup: &PlainName,
    disk: Option<u64>,
) -> Result<BackupMembers, CfgError>
    ensures { FindsAs members_of (HasMembers volume.now backup.now disk (view cfg.now)) result }
{
    let named = members::asked_in(cfg, "Name", backup)?;
    let of_volume = members::asked_in(cfg, "VolumeName", volume)?;
    let snapshot = members::text_in(alloc, cfg, "SnapshotName")?;
    let created = members::created_in(alloc, cfg)?;
    let blocks = members::blocks_in(alloc, cfg)?;
    if !are_once(alloc, &blocks)? {
        return Err(CfgError::Syntax);
    }
    let size = members::disk_size_in(cfg, disk)?;
    if !members::are_within(&size, &blocks) {
        return Err(CfgError::Syntax);
    }
    Ok(BackupMembers {
        named,
        of_volume,
        snapshot,
        created,
        blocks,
        size,
        compressed: members::is_compressed(cfg),
    })
}

fn complete(
    alloc: Global,
    members: BackupMembers,
    volume: &PlainName,
    backup: &PlainName,
) -> Result<BackupCfg, CfgError>
    requires { IsComplete (members_of members) }
    ensures { IsOrNoMemory (answer_of volume.now backup.now (members_of members)) result }
{
    if !members.named {
        return Err(CfgError::Missing(CfgMember::Name));
    }
    if !members.of_volume {
        return Err(CfgError::Missing(CfgMember::VolumeName));
    }
    let snapshot = members
        .snapshot
        .ok_or(CfgError::Missing(CfgMember::SnapshotName))?;
    if members.compressed {
        return Err(CfgError::Compressed);
    }
    let size = members.size.ok_or(CfgError::Missing(CfgMember::DiskSize))?;
    let blocks = pages_of(alloc, size.page_count() as usize, &members.blocks)?;
    Ok(BackupCfg {
        volume: *volume,
        name: *backup,
        created: members.created,
        list: BackupList::new(snapshot, blocks),
    })
}
