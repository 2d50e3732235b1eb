use volume_model::Command;

/// What is kept of a command that has the maintenance turn or waits for it, beside its ticket.
#[derive(Clone, Copy, Debug, PartialEq, Eq)]
pub struct MaintCall {
    pub stream: u8,
    /// How long the journal was when the command was enrolled.
    pub saw: u64,
    pub command: Command,
}
