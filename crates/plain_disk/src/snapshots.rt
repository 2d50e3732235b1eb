ghost use Rattle.std.specs.Prelude.{◌≡◌, map, if◌then◌else◌};
ghost use Rattle.std.specs.List.{list_any};
ghost use Rattle.std.specs.Str.{bytes_eq};
ghost use Rattle.volume_model.specs.Purge.{dropped, parent_in, given};
ghost use Rattle.volume_model.specs.Snapshots.{is_live, marked_if};

use std::marker::Model;
use volume_model::LayerName;

/// A snapshot that was taken.
#[derive(Debug, Drop)]
pub(crate) struct TakenSnapshot {
    pub(crate) name: LayerName,
    /// The snapshot on which it stands, if on one.
    pub(crate) parent: Option<LayerName>,
    /// Whether it is to be removed.
    pub(crate) marked: bool,
}

impl Model for TakenSnapshot {
    ghost use Rattle.volume_model.specs.Snapshots.{Snapshot};

    ghost Value = { Snapshot };

    ghost view = { λ s. record { name = s.name; parent = s.parent; marked = s.marked } };
}

impl TakenSnapshot {
    fn is_named(&self, name: &LayerName) -> bool
        ensures { result ≡ bytes_eq name.now self.now.name }
    {
        name.as_bytes() == self.name.as_bytes()
    }

    fn parent(&self) -> Option<LayerName>
        ensures { result ≡ self.now.parent }
    {
        self.parent
    }

    fn is_marked(&self) -> bool
        ensures { result ≡ self.now.marked }
    {
        self.marked
    }

    fn mark_if_named(&mut self, name: &LayerName)
        ensures { self.new ≡ marked_if name.now self.old }
    {
        if self.is_named(name) {
            self.marked = true;
        }
    }

    fn give_parent_if_named(&mut self, name: &LayerName, parent: &Option<LayerName>)
        ensures { self.new
            ≡ (if bytes_eq name.now self.old.name then record self.old { parent = parent.now } else self.old) }
    {
        if self.is_named(name) {
            self.parent = *parent;
        }
    }
}

/// Whether the newest snapshot of the name can be used.
pub(crate) fn is_live(snapshots: &[TakenSnapshot], name: &LayerName) -> bool
    ensures { result ≡ is_live snapshots.now name.now }
{
    for snapshot in snapshots {
        if snapshot.is_named(name) {
            return !snapshot.is_marked();
        }
    }
    false
}

pub(crate) fn mark(snapshots: &mut [TakenSnapshot], name: &LayerName)
    ensures { snapshots.new ≡ map (marked_if name.now) snapshots.old }
{
    for snapshot in snapshots.iter_mut() {
        snapshot.mark_if_named(name);
    }
}

pub(crate) fn is_used(used: &[LayerName], name: &LayerName) -> bool
    ensures { result ≡ list_any (bytes_eq name.now) used.now }
{
    used.iter().any(|other| name.as_bytes() == other.as_bytes())
}

/// On which the snapshot of the name stands, if there is one and it stands on one.
pub(crate) fn parent_of(snapshots: &[TakenSnapshot], name: &LayerName) -> Option<LayerName>
    ensures { result ≡ parent_in name.now snapshots.now }
{
    for snapshot in snapshots {
        if snapshot.is_named(name) {
            return snapshot.parent();
        }
    }
    None
}

/// Takes the snapshot of the name out, if there is one.
pub(crate) fn take_out(snapshots: &mut Vec<TakenSnapshot>, name: &LayerName)
    ensures { snapshots.new.items ≡ dropped name.now snapshots.old.items }
{
    for place in 0..snapshots.len() {
        if snapshots[place].is_named(name) {
            snapshots.remove(place);
            return;
        }
    }
}

/// Lets the snapshot of the name stand on another parent, or on none.
pub(crate) fn give_parent(
    snapshots: &mut [TakenSnapshot],
    name: &LayerName,
    parent: &Option<LayerName>,
)
    ensures { snapshots.new ≡ given name.now parent.now snapshots.old }
{
    for snapshot in snapshots.iter_mut() {
        snapshot.give_parent_if_named(name, parent);
    }
}
