ghost use Rattle.std.specs.Prelude.{◌≡◌, ℕ, ◌<◌, List, map, length, MatchOption, IfOk, Contains, string_bytes};
ghost use Rattle.chain_meta.specs.declared.disk_meta.DiskMeta.{DiskMeta};
ghost use Rattle.folder_checks.specs.Snapshots.{AreRising, AreSnapshotMetas, name_at, metas_of};
ghost use Rattle.folder_layers.specs.Parents.{IsParentOf, AreParents};

use chain_meta::{DiskMeta, snapshot_name};
use folder_checks::ImageParts;
use std::alloc::{AllocError, Global};

/// The place of a layer's parent among the snapshots; none where it has none, or where that is no
/// snapshot.
pub(crate) fn parent_place(names: &[String], layer: &DiskMeta) -> Option<usize>
    ensures { (metas : List DiskMeta) → AreSnapshotMetas (map string_bytes names.now) metas
        → IsParentOf metas layer.now result }
{
    let parent = layer.parent.as_ref()?;
    match snapshot_name(parent.as_str().as_bytes()) {
        Some(name) => place_of(names, name),
        None => None,
    }
}

/// The places of the parents of all.
pub(crate) fn parents_of(
    alloc: Global,
    names: &[String],
    snapshots: &[ImageParts],
) -> Result<Vec<Option<usize>>, AllocError>
    requires { AreSnapshotMetas (map string_bytes names.now) (metas_of snapshots.now) }
    ensures { IfOk result (λ parents. AreParents (metas_of snapshots.now) parents.items) }
{
    let mut parents = Vec::new(alloc);
    for snapshot in snapshots {
        parents.push(parent_place(names, &snapshot.meta))?;
    }
    Ok(parents)
}

/// The place of a name among names that rise.
fn place_of(names: &[String], name: &[u8]) -> Option<usize>
    ensures { AreRising (map string_bytes names.now) → MatchOption result
        (Contains (map string_bytes names.now) name.now → ⊥)
        (λ place. (place < length names.now) × (name_at (map string_bytes names.now) place ≡ name.now)) }
{
    match names.binary_search_by(|other| other.as_bytes().cmp(name)) {
        Ok(place) => Some(place),
        Err(_) => None,
    }
}
