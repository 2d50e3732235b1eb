//! What follows from the definitions alone. Each law is a contract.

ghost use Rattle.std.specs.Prelude.{◌≡◌, ◌≢◌, ℕ, List, Some, false};
ghost use Rattle.layer_chain.specs.Tree.{Tree, IsWholeTree};
ghost use Rattle.volume_model.specs.Purge.{CanFold};
ghost use Rattle.volume_model.specs.Snapshots.{is_live};
ghost use Rattle.coalesce.specs.Folding.{snapshots_in, MovesBlock, KeepsOthers};

/// Where a layer can be folded, moving any block of its child onto it leaves what every other layer and the head read
/// as, so that a fold can stop at any block and go on later. Nothing reads the layer itself: its name is not live, and the
/// head doesn't stand on it.
pub fn a_block_moves_under_its_reading()
    ensures readings { (old new : Tree) (p c : List ℕ) (block : ℕ) → IsWholeTree old
        → CanFold (snapshots_in old) old.on p c → MovesBlock old new p c block → KeepsOthers old new p }
    ensures unread { (t : Tree) (p c : List ℕ) → IsWholeTree t → CanFold (snapshots_in t) t.on p c
        → (is_live (snapshots_in t) p ≡ false) × (t.on ≢ Some p) }
{}
