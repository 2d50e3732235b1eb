//! What follows from the definitions alone. Each law is a contract.

ghost use Rattle.std.specs.Prelude.{true, false};
ghost use Rattle.sparse_image.specs.Image.{Table, HasNoBlock};
ghost use Rattle.volume_core.specs.State.{State};
ghost use Rattle.volume_rebuild.specs.Answers.{CopiesOut, IsOutOfSource};

use vol_units::PageRef;

/// What went out of the source can come into the target; and where nothing went out, a page without blocks can, as an
/// unmade one is.
pub fn what_went_out_can_come_in()
    ensures some { (s : State) (page : PageRef) (old new : Table)
        → CopiesOut s page true old new → IsOutOfSource s page new }
    ensures none { (s : State) (page : PageRef) (old new bare : Table)
        → CopiesOut s page false old new → HasNoBlock bare → IsOutOfSource s page bare }
{}
