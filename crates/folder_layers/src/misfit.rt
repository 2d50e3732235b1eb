ghost use Rattle.std.specs.Prelude.{◌≡◌, ◌↔◌, ℕ, ◌<◌, List, map, length, IsTrue, IfOk, MatchOption, string_bytes};
ghost use Rattle.chain_meta.specs.declared.disk_meta.DiskMeta.{DiskMeta};
ghost use Rattle.folder_checks.specs.Snapshots.{AreSnapshotMetas, name_at, told_at, metas_of};
ghost use Rattle.folder_layers.specs.Layers.{StandsOnOne, IsEarlier, MayBeLayer, AreFitBelow, IsFirstUnfit, AreFit, IsMisfit};
ghost use Rattle.folder_layers.specs.Parents.{IsParentOf, AreParents};
ghost use Rattle.folder_layers.specs.Rings.{AreMarked};

use crate::parents::{parent_place, parents_of};
use crate::rings::comes_back;
use chain_meta::DiskMeta;
use decimal_text::read_decimal;
use folder_checks::ImageParts;
use std::alloc::{AllocError, Global};
use vol_units::MOST_LAYERS;

/// A layer that cannot stand where it is.
#[derive(Clone, Copy, Debug, PartialEq, Eq)]
pub enum Misfit {
    Head,
    /// The snapshot at that place.
    Snapshot(usize),
}

/// The first layer that cannot stand where it is, if there is one: the head, then the snapshots in
/// byte order of names. Where all can, the first that is too many.
pub fn first_misfit(
    alloc: Global,
    number: u64,
    head: &DiskMeta,
    names: &[String],
    snapshots: &[ImageParts],
) -> Result<Option<Misfit>, AllocError>
    requires { AreSnapshotMetas (map string_bytes names.now) (metas_of snapshots.now) }
    ensures { IfOk result (λ found. MatchOption found
        (AreFit number head.now (map string_bytes names.now) (metas_of snapshots.now))
        (IsMisfit number head.now (map string_bytes names.now) (metas_of snapshots.now))) }
{
    if !stands_on_one(head, parent_place(names, head)) {
        return Ok(Some(Misfit::Head));
    }
    let parents = parents_of(alloc, names, snapshots)?;
    let mut marks = vec![in alloc; false; snapshots.len()]?;
    if let Some(place) = first_unfit(number, names, snapshots, &parents, &mut marks) {
        return Ok(Some(Misfit::Snapshot(place)));
    }
    if snapshots.len() >= MOST_LAYERS {
        return Ok(Some(Misfit::Snapshot(MOST_LAYERS - 1)));
    }
    Ok(None)
}

/// The place of the first snapshot that may not be a layer below a head of that number.
fn first_unfit(
    number: u64,
    names: &[String],
    snapshots: &[ImageParts],
    parents: &[Option<usize>],
    marks: &mut [bool],
) -> Option<usize>
    requires listed { AreSnapshotMetas (map string_bytes names.now) (metas_of snapshots.now) }
    requires parents { AreParents (metas_of snapshots.now) parents.now }
    requires marked { AreMarked parents.now marks.old }
    ensures { MatchOption result
        (AreFitBelow number (map string_bytes names.now) (metas_of snapshots.now) (length snapshots.now))
        (IsFirstUnfit number (map string_bytes names.now) (metas_of snapshots.now)) }
{
    for place in 0..snapshots.len() {
        if !is_fit(number, names, snapshots, parents, marks, place) {
            return Some(place);
        }
    }
    None
}

/// Whether the snapshot at a place may be a layer below a head of that number.
fn is_fit(
    number: u64,
    names: &[String],
    snapshots: &[ImageParts],
    parents: &[Option<usize>],
    marks: &mut [bool],
    place: usize,
) -> bool
    requires listed { AreSnapshotMetas (map string_bytes names.now) (metas_of snapshots.now) }
    requires parents { AreParents (metas_of snapshots.now) parents.now }
    requires marked { AreMarked parents.now marks.old }
    requires within { place < length snapshots.now }
    ensures fit { IsTrue result ↔ MayBeLayer number (metas_of snapshots.now)
        (name_at (map string_bytes names.now) place) (told_at (metas_of snapshots.now) place) }
    ensures marked { AreMarked parents.now marks.new }
{
    if !stands_on_one(&snapshots[place].meta, parents[place]) {
        return false;
    }
    if !is_earlier(number, names[place].as_bytes()) {
        return false;
    }
    !comes_back(parents, marks, place)
}

/// Whether a layer's parent, if it has one, is a snapshot, as the place of its parent tells.
fn stands_on_one(layer: &DiskMeta, parent: Option<usize>) -> bool
    ensures { (metas : List DiskMeta) → IsParentOf metas layer.now parent
        → IsTrue result ↔ StandsOnOne metas layer.now }
{
    layer.parent.is_none() || parent.is_some()
}

/// Whether a name is none that the engine gives, or of a head before the one of that number.
fn is_earlier(number: u64, name: &[u8]) -> bool
    ensures { IsTrue result ↔ IsEarlier number name.now }
{
    if !name.starts_with(b"sys-") {
        return true;
    }
    match read_decimal(name.split_at(4).1) {
        Some(own) => own < number,
        None => false,
    }
}
