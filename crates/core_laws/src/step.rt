use crate::backup_step::BackupStep;
use crate::maint_step::MaintStep;
use crate::rebuild_step::RebuildStep;
use volume_core::{Call, TicketNumber};

/// A step that may be asked of a World. It names no blocks: those of a write are made where it is taken.
#[derive(Debug, Drop)]
pub enum Step {
    /// A stream enrols a read or a write.
    Enrol { stream: u8, call: Call },
    /// A stream has a call answered that asks nothing of a replica's blocks.
    AnswerNow { stream: u8, call: Call },
    /// A call that waits asks to start.
    Admit(TicketNumber),
    /// A call that waits is taken back.
    Withdraw(TicketNumber),
    /// A replica takes a write.
    ApplyWrite { ticket: TicketNumber, replica: u8 },
    /// A replica gives the bytes of a read.
    ApplyRead { ticket: TicketNumber, replica: u8 },
    /// A replica acknowledges its part.
    Ack { ticket: TicketNumber, replica: u8 },
    /// The line of a stream to a replica has failed, for that many times by now.
    Fault { stream: u8, replica: u8, count: u64 },
    /// A call ends.
    Complete(TicketNumber),
    /// A step of the maintenance turn, of a call on the whole volume, or of folding.
    Maint(MaintStep),
    /// A step of a rebuild that is past its barrier.
    Rebuild(RebuildStep),
    /// What a backup reads.
    Backup(BackupStep),
}
