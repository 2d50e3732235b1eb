use volume_core::{Command, Reply, TicketNumber};
use volume_maint::{LayerName, WholeOp};

/// A step of the maintenance turn, of a call on the whole volume, or of folding.
#[derive(Debug, Drop)]
pub enum MaintStep {
    /// A stream enrols a command that wants the turn.
    Enrol {
        stream: u8,
        command: Command,
    },
    /// A command that waits asks for the turn.
    Admit(TicketNumber),
    /// A command that waits is taken back.
    Withdraw(TicketNumber),
    /// The command that has the turn ends with that reply.
    End {
        ticket: TicketNumber,
        reply: Reply,
    },
    /// The command that has the turn gives it back, without an answer but where a rebuild of it was begun.
    Abandon(TicketNumber),
    /// A stream enrols an operation on the whole volume.
    EnrolWhole {
        stream: u8,
        op: WholeOp,
    },
    /// An operation that waits asks to start.
    AdmitWhole(TicketNumber),
    /// An operation that waits is taken back.
    WithdrawWhole(TicketNumber),
    /// A replica takes its part of the started operation.
    Part {
        ticket: TicketNumber,
        replica: u8,
    },
    /// A replica acknowledges its part.
    AckWhole {
        ticket: TicketNumber,
        replica: u8,
    },
    /// The started operation ends.
    CompleteWhole(TicketNumber),
    /// A replica folds a page of a layer's one child onto the layer.
    FoldPage {
        replica: u8,
        parent: LayerName,
        page: u32,
    },
}
