ghost use Rattle.std.specs.Prelude.{◌≡◌, ◌≤◌, IfOk, IfErr, length};
ghost use Rattle.serde_json.specs.View.{view};
ghost use Rattle.serde_json.specs.Written.{compact_text};
ghost use Rattle.chain_meta.specs.Answers.{Finds};
ghost use Rattle.chain_meta.specs.Kinds.{largest_head, largest_meta};
ghost use Rattle.chain_meta.specs.VolumeMetas.{volume_data, IsGoodVolume, error_text, HasVolumeMembers, AnswersVolume};
ghost use Rattle.chain_meta.specs.VolumeMetas.{CompletesVolume, SaysVolume, RefusesVolume, IsOnlyVolume};

use crate::error::{MetaError, MetaMember};
use crate::image_name::ImageName;
use crate::members;
use serde_json::{Value, json};
use std::alloc::{AllocError, Global};

/// What the metadata of the volume says.
#[derive(Debug, Drop)]
pub struct VolumeMeta {
    pub dirty: bool,
    pub rebuilding: bool,
    /// An error is told.
    pub failed: bool,
    /// The number of the head.
    pub head: u64,
    /// The head's parent.
    pub parent: Option<ImageName>,
    pub size: u64,
}

/// The members of the metadata of the volume, of which some may be missing.
#[derive(Debug, Drop)]
pub struct VolumeMembers {
    pub dirty: Option<bool>,
    pub rebuilding: Option<bool>,
    pub failed: bool,
    pub head: Option<u64>,
    pub parent: Option<Option<ImageName>>,
    pub size: Option<u64>,
    /// A backing file is named.
    pub backed: bool,
}

impl VolumeMeta {
    /// The metadata as compact JSON, its members in the order of their names.
    pub fn write(&self, alloc: Global) -> Result<Vec<u8>, AllocError>
        ensures text { IfOk result (λ bytes. bytes.items ≡ compact_text (volume_data self.now)) }
        ensures short { IfOk result (λ bytes. length bytes.items ≤ largest_meta) }

        // What was written is read as the same, where the number of the head is one that is opened.
        ensures reads_back { IfOk result (λ bytes. self.now.head ≤ largest_head → SaysVolume bytes.items self.now) }
    {
        let value = self.value(alloc)?;
        value.to_vec(alloc)
    }

    fn value(&self, alloc: Global) -> Result<Value, AllocError>
        ensures value { IfOk result (λ v. view v ≡ volume_data self.now) }
        ensures good { IfOk result (λ _. IsGoodVolume self.now) }
    {
        let parent = members::parent_text(&self.parent);
        let head = ImageName::head(alloc, self.head)?;
        json!(in alloc; {
            "Dirty": self.dirty,
            "Error": error_text(self.failed),
            "Head": head.as_str(),
            "Parent": parent,
            "Rebuilding": self.rebuilding,
            "SectorSize": 512u32,
            "Size": self.size
        })
    }

    /// What the bytes say, their members in whatever order, and others beside them.
    pub fn read(alloc: Global, bytes: &[u8]) -> Result<VolumeMeta, MetaError>
        ensures found { IfOk result (SaysVolume bytes.now) }
        ensures refused { IfErr result (RefusesVolume bytes.now) }

        // But for want of memory no other answer is true of the bytes.
        ensures only { IsOnlyVolume bytes.now result }
    {
        read_volume(alloc, bytes)
    }
}

fn error_text(failed: bool) -> &'static str
    ensures { result.now ≡ error_text failed }
{
    if failed { "ERR" } else { "" }
}

fn read_volume(alloc: Global, bytes: &[u8]) -> Result<VolumeMeta, MetaError>
    ensures { AnswersVolume bytes.now result }
{
    let value = Value::from_slice(alloc, bytes)?;
    if !value.is_object() {
        return Err(MetaError::Syntax);
    }
    let members = members_in(alloc, &value)?;
    complete(members)
}

fn members_in(alloc: Global, meta: &Value) -> Result<VolumeMembers, MetaError>
    ensures { Finds (HasVolumeMembers (view meta.now)) result }
{
    let dirty = members::flag_in(meta, "Dirty")?;
    let rebuilding = members::flag_in(meta, "Rebuilding")?;
    let failed = members::error_in(meta)?;
    let head = members::head_in(meta)?;
    let parent = members::parent_in(alloc, meta)?;
    let size = members::size_in(meta)?;
    Ok(VolumeMembers {
        dirty,
        rebuilding,
        failed,
        head,
        parent,
        size,
        backed: members::has_backing(meta),
    })
}

fn complete(members: VolumeMembers) -> Result<VolumeMeta, MetaError>
    ensures { CompletesVolume members result }
{
    let dirty = members.dirty.ok_or(MetaError::Missing(MetaMember::Dirty))?;
    let rebuilding = members
        .rebuilding
        .ok_or(MetaError::Missing(MetaMember::Rebuilding))?;
    let head = members.head.ok_or(MetaError::Missing(MetaMember::Head))?;
    let parent = members
        .parent
        .ok_or(MetaError::Missing(MetaMember::Parent))?;
    let size = members.size.ok_or(MetaError::Missing(MetaMember::Size))?;
    if members.backed {
        return Err(MetaError::Backing);
    }
    Ok(VolumeMeta {
        dirty,
        rebuilding,
        failed: members.failed,
        head,
        parent,
        size,
    })
}
