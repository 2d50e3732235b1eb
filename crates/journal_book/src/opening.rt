use crate::taken::TakenNames;
use mode_table::ModeTable;

/// How a run begins.
#[derive(Debug, Drop)]
pub struct Opening {
    /// The mode of each replica.
    pub modes: ModeTable,
    /// How many layers there are, the head counted.
    pub layers: u32,
    /// The names that snapshots were taken under.
    pub names: TakenNames,
}
