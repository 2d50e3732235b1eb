use volume_core::TicketNumber;
use volume_rebuild::PageRef;

/// A step of a rebuild that is past its barrier.
#[derive(Clone, Copy, Debug, PartialEq, Eq)]
pub enum RebuildStep {
    /// A page goes out of the source, and is given to nobody.
    CopyOut(PageRef),
    /// A page goes out of the source and comes into the target.
    CopyIn(PageRef),
    /// The target is promoted, and the command that has the turn is answered.
    Promote(TicketNumber),
}
