//! A page of a snapshot's copy.

ghost use Rattle.std.specs.Prelude.{◌≡◌, ◌+◌, ◌*◌, ◌<◌, ◌≤◌, ℕ, true, false, length, Some, IfErr, OnOk, OnErr};
ghost use Rattle.vol_units.specs.Bytes.{bytes_at};
ghost use Rattle.vol_units.specs.declared.size.TheConstants.{PAGE_BYTES};
ghost use Rattle.volume_model.specs.Modes.{mode_of};
ghost use Rattle.replica_node.specs.Node.{IsKept, disk_named};
ghost use Rattle.open_calls.specs.Calls.{node_at};
ghost use Rattle.volume_core.specs.State.{state_of, modes_in};
ghost use Rattle.volume_core.specs.Sound.{IsSound};
ghost use Rattle.volume_core.specs.Streams.{MayGo};
ghost use Rattle.volume_backup.specs.Answers.{IsReadable, GivesPage, AgainstPage};

use crate::told::{is_calm, is_live};
use replica_node::LayerName;
use vol_units::PAGE_BYTES;
use volume_core::{Mode, NotThis, World};

/// Reads a page of a snapshot's copy from a replica that is read, into a buffer that is lent. It takes no memory.
pub fn snap_page(
    world: &mut World,
    replica: u8,
    name: &LayerName,
    page: u32,
    into: &mut [u8],
) -> Result<(), NotThis>
    requires sound { IsSound (state_of world.old) }
    requires whole { length into.old ≡ PAGE_BYTES }
    ensures same { state_of world.new ≡ state_of world.old }
    ensures ok { OnOk result (GivesPage (state_of world.old) replica name.now page into.new) }
    ensures why { IfErr result (AgainstPage (state_of world.old) replica name.now page) }
    ensures err { OnErr result (into.new ≡ into.old) }
    ensures may { (stream : ℕ) → MayGo stream (state_of world.old) (state_of world.new) }
{
    let mode = world.journal.mode(replica);
    if mode != Mode::Rw {
        return Err(NotThis::Mode(mode));
    }
    if !is_readable(world, name, page) {
        return Err(NotThis::Page);
    }
    read_page(world, replica, *name, page, into);
    Ok(())
}

/// Whether a replica that is read can give the page.
fn is_readable(world: &World, name: &LayerName, page: u32) -> bool
    requires { IsSound (state_of world.now) }
    ensures yes { result ≡ true → IsReadable (state_of world.now) name.now page }
    ensures no { result ≡ false → IsReadable (state_of world.now) name.now page → ⊥ }
    ensures whole { result ≡ true → page * PAGE_BYTES + PAGE_BYTES ≤ world.now.size }
{
    if !is_calm(world) {
        return false;
    }
    if page >= world.size.page_count() {
        return false;
    }
    is_live(world, name)
}

/// The replica gives the bytes of the page.
fn read_page(world: &mut World, replica: u8, name: LayerName, page: u32, into: &mut [u8])
    requires node { replica < length world.old.nodes.items }
    requires kept { IsKept (node_at world.old.nodes.items replica) (Some name) }
    requires inside { page * PAGE_BYTES + length into.old
        ≤ length (node_at world.old.nodes.items replica).disk }
    ensures bytes { into.new
        ≡ bytes_at (disk_named (node_at world.old.nodes.items replica).layers name)
        (page * PAGE_BYTES) (length into.old) }
    ensures same { state_of world.new ≡ state_of world.old }
{
    let start = page as usize * PAGE_BYTES as usize;
    world.nodes[replica as usize].read_bytes(Some(name), start, into);
}
