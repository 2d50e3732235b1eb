ghost use Rattle.std.specs.Prelude.{◌≡◌, ◌≤◌, Ok, length, IfOk};
ghost use Rattle.serde_json.specs.View.{view};
ghost use Rattle.serde_json.specs.Written.{compact_text};
ghost use Rattle.backup_config.specs.Answers.{largest_cfg, Finds};
ghost use Rattle.backup_config.specs.VolumeCfgs.{volume_data, HasVolumeMembers, volume_answer_of};
ghost use Rattle.backup_config.specs.VolumeCfgs.{SaysVolume, IsOnlyVolume, IsGoodVolume};

use crate::backup_cfg::LONGEST_CFG;
use crate::error::{CfgError, CfgMember};
use crate::members;
use itoa::Buffer;
use serde_json::{Value, json};
use std::alloc::{AllocError, Global};
use vol_units::{PlainName, TimeText, VolumeSize};

/// What the cfg of a volume says.
#[derive(Debug, Drop)]
pub struct VolumeCfg {
    pub name: PlainName,
    /// When it was written.
    pub created: TimeText,
    /// The last backup that was made.
    pub last: Option<PlainName>,
    /// The size of that backup's disk.
    pub size: VolumeSize,
}

/// The members of the cfg of a volume, of which some may be missing.
#[derive(Debug, Drop)]
pub struct VolumeMembers {
    pub created: TimeText,
    pub last: Option<PlainName>,
    pub size: Option<VolumeSize>,
    /// A backing image is named.
    pub backed: bool,
}

impl VolumeCfg {
    /// The cfg as compact JSON, its members in the order of their names.
    pub fn write(&self, alloc: Global) -> Result<Vec<u8>, AllocError>
        ensures text { IfOk result (λ bytes. bytes.items ≡ compact_text (volume_data self.now)) }
        ensures short { IfOk result (λ bytes. length bytes.items ≤ largest_cfg) }

        // What was written is read as the same.
        ensures reads_back { IfOk result (λ bytes. SaysVolume self.now.name bytes.items (Ok self.now)) }
    {
        let value = self.value(alloc)?;
        value.to_vec(alloc)
    }

    fn value(&self, alloc: Global) -> Result<Value, AllocError>
        ensures value { IfOk result (λ v. view v ≡ volume_data self.now) }
        ensures good { IfOk result (λ _. IsGoodVolume self.now) }
    {
        let last = members::last_text(&self.last);
        let mut digits = Buffer::new();
        let size = digits.format(self.size.bytes());
        json!(in alloc; {
            "CompressionMethod": "none",
            "CreatedTime": self.created.as_str(),
            "LastBackupName": last,
            "Name": members::text_of(&self.name),
            "Size": size
        })
    }

    /// What the bytes say of that volume, their members in whatever order, and others beside them. Only the size and a
    /// backing image can be refused: the name that the bytes give is not looked at.
    pub fn read(alloc: Global, bytes: &[u8], volume: &PlainName) -> Result<VolumeCfg, CfgError>
        ensures says { SaysVolume volume.now bytes.now result }

        // But for want of memory no other answer is true of the bytes.
        ensures only { IsOnlyVolume volume.now bytes.now result }
    {
        read_volume(alloc, bytes, volume)
    }
}

fn read_volume(alloc: Global, bytes: &[u8], volume: &PlainName) -> Result<VolumeCfg, CfgError>
    ensures { SaysVolume volume.now bytes.now result }
{
    if bytes.len() > LONGEST_CFG {
        return Err(CfgError::Syntax);
    }
    let value = Value::from_slice(alloc, bytes)?;
    if !value.is_object() {
        return Err(CfgError::Syntax);
    }
    match members_in(alloc, &value) {
        Ok(members) => complete(members, volume),
        Err(e) => Err(e),
    }
}

fn members_in(alloc: Global, cfg: &Value) -> Result<VolumeMembers, CfgError>
    ensures { Finds (HasVolumeMembers (view cfg.now)) result }
{
    let created = members::created_in(alloc, cfg)?;
    let size = members::size_in(cfg)?;
    Ok(VolumeMembers {
        created,
        last: members::last_in(cfg),
        size,
        backed: members::has_backing(cfg),
    })
}

fn complete(members: VolumeMembers, volume: &PlainName) -> Result<VolumeCfg, CfgError>
    ensures { result ≡ volume_answer_of volume.now members }
{
    let size = members.size.ok_or(CfgError::Missing(CfgMember::Size))?;
    if members.backed {
        return Err(CfgError::Backing);
    }
    Ok(VolumeCfg {
        name: *volume,
        created: members.created,
        last: members.last,
        size,
    })
}
