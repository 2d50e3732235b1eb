ghost use Rattle.std.specs.Prelude.{◌≡◌, ◌++◌, string_bytes, IfOk, OnOk};
ghost use Rattle.backup_units.specs.Names.{two_folders, volume_folder, volume_name, cfg_prefix, cfg_name, block_name};

use crate::checksum::Checksum;
use std::alloc::{AllocError, Global};
use vol_units::PlainName;

/// The name of the object with the volume's cfg.
pub fn volume_name(alloc: Global, volume: &PlainName) -> Result<String, AllocError>
    ensures { IfOk result (λ name. string_bytes name ≡ volume_name volume.now) }
{
    let mut name = volume_folder(alloc, volume)?;
    name.push_str("volume.cfg")?;
    Ok(name)
}

/// What the names of the cfgs of a volume's backups begin with.
pub fn cfg_prefix(alloc: Global, volume: &PlainName) -> Result<String, AllocError>
    ensures { IfOk result (λ name. string_bytes name ≡ cfg_prefix volume.now) }
{
    let mut name = volume_folder(alloc, volume)?;
    name.push_str("backups/backup_")?;
    Ok(name)
}

/// The name of the object with the cfg of a backup.
pub fn cfg_name(alloc: Global, volume: &PlainName, backup: &PlainName) -> Result<String, AllocError>
    ensures { IfOk result (λ name. string_bytes name ≡ cfg_name volume.now backup.now) }
{
    let mut name = cfg_prefix(alloc, volume)?;
    name.push_str(backup.as_str())?;
    name.push_str(".cfg")?;
    Ok(name)
}

/// The name of the object with the block of that checksum.
pub fn block_name(
    alloc: Global,
    volume: &PlainName,
    checksum: &Checksum,
) -> Result<String, AllocError>
    ensures { IfOk result (λ name. string_bytes name ≡ block_name volume.now checksum.now) }
{
    let mut name = volume_folder(alloc, volume)?;
    name.push_str("blocks/")?;
    push_two_folders(&mut name, checksum)?;
    name.push_str(checksum.as_str())?;
    name.push_str(".blk")?;
    Ok(name)
}

/// What the names of all objects of a volume begin with: its folder in the store of Longhorn's backupstore.
#[tactic(auto, unfolding(crate::specs::Names::volume_folder))]
fn volume_folder(alloc: Global, volume: &PlainName) -> Result<String, AllocError>
    ensures { IfOk result (λ name. string_bytes name ≡ volume_folder volume.now) }
{
    let mut name = String::from_str(alloc, "backupstore/volumes/")?;
    push_two_folders(&mut name, &Checksum::of(volume.as_bytes()))?;
    name.push_str(volume.as_str())?;
    name.push_str("/")?;
    Ok(name)
}

/// Two folders, by the first digits, so that none has too many entries.
fn push_two_folders(name: &mut String, checksum: &Checksum) -> Result<(), AllocError>
    ensures { OnOk result (string_bytes name.new ≡ string_bytes name.old ++ two_folders checksum.now) }
{
    let digits = checksum.as_str();
    name.push_str(&digits[..2])?;
    name.push_str("/")?;
    name.push_str(&digits[2..4])?;
    name.push_str("/")?;
    Ok(())
}
