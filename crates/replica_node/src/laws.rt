//! What a change of a replica makes of the volume that it is. Each law is a contract.

ghost use Rattle.std.specs.Prelude.{◌≡◌, ℕ, ◌+◌, ◌*◌, List, Some, length, pos, true, false};
ghost use Rattle.volume_model.specs.Disk.{zeros};
ghost use Rattle.volume_model.specs.Names.{NamesOnce, has_name};
ghost use Rattle.volume_model.specs.PlainState as plain;
ghost use Rattle.volume_model.specs.Purge.{CanFold, CanDrop};
ghost use Rattle.volume_model.specs.Snapshots.{is_live, layer_count};
ghost use Rattle.volume_model.specs.declared.mark.FoldOrDrop.TheVariants as part;
ghost use Rattle.replica_node.specs.Fold.{tree_of, page_folded, replaced_node, dropped_node};
ghost use Rattle.replica_node.specs.Node.{Node, IsKept, IsFree};
ghost use Rattle.replica_node.specs.Node as node;
ghost use Rattle.replica_node.specs.Room.{put_at, with_room_of};
ghost use Rattle.replica_node.specs.Volume.{volume_of_node};

use sparse_image::BLOCK_BYTES;

/// A blank replica is a volume of zeros. What a snapshot, a revert, a mark and blocks that are put make of a replica is what
/// they make of the volume; places that are made are not seen.
pub fn a_replica_changes_as_its_volume()
    ensures blank { (size : ℕ) → volume_of_node (node.blank size) ≡ plain.volume_of (zeros size) }
    ensures room { (n other : Node) → volume_of_node (with_room_of n other) ≡ volume_of_node n }
    ensures put { (n : Node) (first : ℕ) (bytes : List ℕ) → volume_of_node (put_at n first bytes)
        ≡ plain.written (volume_of_node n) (pos (first * BLOCK_BYTES)) bytes }
    ensures snapshot { (n : Node) (name : List ℕ)
        → volume_of_node (node.snapped_node n name) ≡ plain.snapped (volume_of_node n) name }
    ensures revert { (n : Node) (name : List ℕ) → is_live (tree_of n) name ≡ true
        → volume_of_node (node.reverted_node n name) ≡ plain.reverted (volume_of_node n) name }
    ensures remove { (n : Node) (name : List ℕ)
        → volume_of_node (node.marked n name) ≡ plain.removed (volume_of_node n) name }
{}

/// Where no name comes twice, a page that is folded is not seen, and what a replaced parent and a dropped layer leave is what
/// a part of a purge leaves.
pub fn a_replica_is_purged_as_its_volume()
    ensures page { (n : Node) (p c : List ℕ) (page : ℕ) → NamesOnce (tree_of n) → CanFold (tree_of n) n.on p c
        → volume_of_node (page_folded n p c page) ≡ volume_of_node n }
    ensures fold { (n : Node) (p c : List ℕ) → NamesOnce (tree_of n) → CanFold (tree_of n) n.on p c
        → volume_of_node (replaced_node n p c) ≡ plain.purged (volume_of_node n) (part.Fold p c) }
    ensures drop { (n : Node) (p : List ℕ) → NamesOnce (tree_of n) → CanDrop (tree_of n) n.on p
        → volume_of_node (dropped_node n p) ≡ plain.purged (volume_of_node n) (part.Drop p) }
{}

/// What the volume tells of its snapshots is told of the layers.
pub fn a_replica_tells_of_its_volume()
    ensures count { (n : Node) → layer_count (volume_of_node n).snapshots ≡ length n.layers + 1 }
    ensures kept { (n : Node) (name : List ℕ) → is_live (tree_of n) name ≡ true → IsKept n (Some name) }
    ensures free { (n : Node) (name : List ℕ) → has_name (tree_of n) name ≡ false → IsFree n name }
{}
