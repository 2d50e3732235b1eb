ghost use Rattle.std.specs.Prelude.{◌≡◌, ◌+◌, ◌<◌, ◌≤◌, [], map, OnOk, OnErr};
ghost use Rattle.indexmap.specs.IndexMap.{spare};
ghost use Rattle.volume_model.specs.Names.{is_used_in, is_live_in, with_name, name_marked};
ghost use Rattle.journal_book.specs.Taken.{taken_of, with_found};

use indexmap::IndexMap;
use std::alloc::{AllocError, Global};
use std::marker::Model;
use volume_model::LayerName;

/// Each name with its mark, the oldest first.
pub(crate) type NameMap = IndexMap<LayerName, bool>;

/// The names that snapshots were taken under, each marked once its snapshot is to be removed. One is found without a walk
/// over all. A contract sees the list, the newest first.
#[derive(Debug, Drop)]
pub struct TakenNames {
    pub(crate) map: NameMap,
}

impl Model for TakenNames {
    ghost use Rattle.std.specs.Prelude.{List};
    ghost use Rattle.volume_model.specs.declared.names.UsedName.{UsedName};
    ghost use Rattle.journal_book.specs.Taken.{taken_of};

    ghost Value = { List UsedName };

    ghost view = { λ t. taken_of t.map.entries };
}

impl TakenNames {
    /// No name. It takes no memory.
    pub fn none(alloc: Global) -> TakenNames
        ensures { result ≡ [] }
    {
        TakenNames {
            map: IndexMap::new(alloc),
        }
    }

    /// One name more, unless it is there already.
    pub fn take(&mut self, name: LayerName) -> Result<(), AllocError>
        ensures ok { OnOk result (self.new ≡ with_name self.old name) }
        ensures err { OnErr result (self.new ≡ self.old) }
    {
        self.map.reserve(1)?;
        take_reserved(&mut self.map, name);
        Ok(())
    }

    /// One name more, marked or not, as it was found in a replica's folder, unless it is there already.
    pub fn take_found(&mut self, name: LayerName, marked: bool) -> Result<(), AllocError>
        ensures ok { OnOk result (self.new ≡ with_found self.old name marked) }
        ensures err { OnErr result (self.new ≡ self.old) }
    {
        self.map.reserve(1)?;
        put_reserved(&mut self.map, name, marked);
        Ok(())
    }

    /// Whether a snapshot was taken under the name.
    pub fn is_used(&self, name: &LayerName) -> bool
        ensures { result ≡ is_used_in self.now name.now }
    {
        is_used(&self.map, name)
    }

    /// Whether the snapshot of the name can be used.
    pub fn is_live(&self, name: &LayerName) -> bool
        ensures { result ≡ is_live_in self.now name.now }
    {
        is_live(&self.map, name)
    }
}

pub(crate) fn is_used(names: &NameMap, name: &LayerName) -> bool
    ensures { result ≡ is_used_in (taken_of names.now.entries) name.now }
{
    names.contains_key(name)
}

pub(crate) fn is_live(names: &NameMap, name: &LayerName) -> bool
    ensures { result ≡ is_live_in (taken_of names.now.entries) name.now }
{
    // That each name stands in the map once, a proof learns here.
    let _count = names.len();
    match names.get(name) {
        Some(marked) => !*marked,
        None => false,
    }
}

/// One name more, unless it is there already. It takes no memory.
pub(crate) fn take_reserved(names: &mut NameMap, name: LayerName)
    requires { 0 < spare names.old }
    ensures names { taken_of names.new.entries ≡ with_name (taken_of names.old.entries) name }
    ensures spare { spare names.old ≤ spare names.new + 1 }
{
    put_reserved(names, name, false);
}

/// One name more with its mark, unless it is there already. It takes no memory.
fn put_reserved(names: &mut NameMap, name: LayerName, marked: bool)
    requires { 0 < spare names.old }
    ensures names { taken_of names.new.entries ≡ with_found (taken_of names.old.entries) name marked }
    ensures spare { spare names.old ≤ spare names.new + 1 }
{
    if !names.contains_key(&name) {
        names.insert(name, marked).unwrap();
    }
}

/// The snapshot of the name is to be removed.
pub(crate) fn mark(names: &mut NameMap, name: &LayerName)
    ensures names { taken_of names.new.entries
        ≡ map (name_marked name.now) (taken_of names.old.entries) }
    ensures spare { spare names.new ≡ spare names.old }
{
    if let Some(marked) = names.get_mut(name) {
        *marked = true;
    }
}
