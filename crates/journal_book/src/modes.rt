//! What the entries of a run leave of the modes.

ghost use Rattle.std.specs.Prelude.{◌≡◌};
ghost use Rattle.volume_model.specs.Modes.{modes_after_entry};

use mode_table::ModeTable;
use volume_model::Entry;

/// Makes the modes what they are after the entry.
pub(crate) fn follow_modes(modes: &mut ModeTable, entry: &Entry)
    ensures { modes.new ≡ modes_after_entry modes.old entry.now }
{
    if let Entry::Mark(mark) = entry {
        modes.follow(mark);
    }
}
