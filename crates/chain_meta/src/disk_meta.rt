ghost use Rattle.std.specs.Prelude.{◌≡◌, ◌≤◌, IfOk, IfErr, length};
ghost use Rattle.serde_json.specs.View.{view};
ghost use Rattle.serde_json.specs.Written.{compact_text};
ghost use Rattle.chain_meta.specs.Answers.{Finds};
ghost use Rattle.chain_meta.specs.Kinds.{largest_meta};
ghost use Rattle.chain_meta.specs.DiskMetas.{disk_data, IsGoodDisk, HasDiskMembers, AnswersDisk, CompletesDisk};
ghost use Rattle.chain_meta.specs.DiskMetas.{SaysDisk, RefusesDisk, IsOnlyDisk};

use crate::error::{MetaError, MetaMember};
use crate::image_name::ImageName;
use crate::members;
use serde_json::{Value, json};
use std::alloc::{AllocError, Global};
use vol_units::TimeText;

/// What the metadata of a layer says of it.
#[derive(Debug, Drop)]
pub struct DiskMeta {
    pub created: TimeText,
    pub name: ImageName,
    /// None where the layer stands on no other.
    pub parent: Option<ImageName>,
    pub removed: bool,
    pub user_created: bool,
}

/// The members of the metadata of a layer, of which some may be missing.
#[derive(Debug, Drop)]
pub struct DiskMembers {
    pub created: TimeText,
    pub name: Option<ImageName>,
    pub parent: Option<Option<ImageName>>,
    pub removed: Option<bool>,
    pub user_created: bool,
    /// A backing file is named.
    pub backed: bool,
}

impl DiskMeta {
    /// The metadata as compact JSON, its members in the order of their names.
    pub fn write(&self, alloc: Global) -> Result<Vec<u8>, AllocError>
        ensures text { IfOk result (λ bytes. bytes.items ≡ compact_text (disk_data self.now)) }
        ensures short { IfOk result (λ bytes. length bytes.items ≤ largest_meta) }

        // What was written is read as the same.
        ensures reads_back { IfOk result (λ bytes. SaysDisk bytes.items self.now) }
    {
        let value = self.value(alloc)?;
        value.to_vec(alloc)
    }

    fn value(&self, alloc: Global) -> Result<Value, AllocError>
        ensures value { IfOk result (λ v. view v ≡ disk_data self.now) }
        ensures good { IfOk result (λ _. IsGoodDisk self.now) }
    {
        let parent = members::parent_text(&self.parent);
        json!(in alloc; {
            "Created": self.created.as_str(),
            "Labels": {},
            "Name": self.name.as_str(),
            "Parent": parent,
            "Removed": self.removed,
            "UserCreated": self.user_created
        })
    }

    /// What the bytes say, their members in whatever order, and others beside them.
    pub fn read(alloc: Global, bytes: &[u8]) -> Result<DiskMeta, MetaError>
        ensures found { IfOk result (SaysDisk bytes.now) }
        ensures refused { IfErr result (RefusesDisk bytes.now) }

        // But for want of memory no other answer is true of the bytes.
        ensures only { IsOnlyDisk bytes.now result }
    {
        read_disk(alloc, bytes)
    }
}

fn read_disk(alloc: Global, bytes: &[u8]) -> Result<DiskMeta, MetaError>
    ensures { AnswersDisk bytes.now result }
{
    let value = Value::from_slice(alloc, bytes)?;
    if !value.is_object() {
        return Err(MetaError::Syntax);
    }
    let members = members_in(alloc, &value)?;
    complete(members)
}

fn members_in(alloc: Global, meta: &Value) -> Result<DiskMembers, MetaError>
    ensures { Finds (HasDiskMembers (view meta.now)) result }
{
    let created = members::created_in(alloc, meta)?;
    if !members::labels_are_good(meta) {
        return Err(MetaError::Syntax);
    }
    let name = members::image_in(alloc, meta, "Name")?;
    let parent = members::parent_in(alloc, meta)?;
    let removed = members::flag_in(meta, "Removed")?;
    let user_created = members::flag_or_false_in(meta, "UserCreated")?;
    Ok(DiskMembers {
        created,
        name,
        parent,
        removed,
        user_created,
        backed: members::has_backing(meta),
    })
}

fn complete(members: DiskMembers) -> Result<DiskMeta, MetaError>
    ensures { CompletesDisk members result }
{
    let name = members.name.ok_or(MetaError::Missing(MetaMember::Name))?;
    let parent = members
        .parent
        .ok_or(MetaError::Missing(MetaMember::Parent))?;
    let removed = members
        .removed
        .ok_or(MetaError::Missing(MetaMember::Removed))?;
    if members.backed {
        return Err(MetaError::Backing);
    }
    Ok(DiskMeta {
        created: members.created,
        name,
        parent,
        removed,
        user_created: members.user_created,
    })
}
