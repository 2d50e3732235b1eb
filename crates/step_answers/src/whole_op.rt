ghost use Rattle.std.specs.Prelude.{◌≡◌};
ghost use Rattle.step_answers.specs.Asked.{command_of};

use volume_model::{Command, FoldOrDrop, LayerName, SnapName};

/// What is done to the whole volume, a part on each replica.
#[derive(Clone, Copy, Debug, PartialEq, Eq)]
pub enum WholeOp {
    Snapshot(SnapName),
    Remove(LayerName),
    Revert(LayerName),
    /// A layer goes, as a part of a purge: the last step of a fold, or a drop.
    Purge(FoldOrDrop),
    /// The barrier of a rebuild of that replica: a snapshot under the engine's own name, so that the heads begin together.
    Barrier(u8),
}

impl WholeOp {
    /// The command that asks for it.
    pub fn command(self) -> Command
        ensures { result ≡ command_of self }
    {
        match self {
            WholeOp::Snapshot(name) => Command::Snapshot(name),
            WholeOp::Remove(name) => Command::Remove(name),
            WholeOp::Revert(name) => Command::Revert(name),
            WholeOp::Purge(_) => Command::Purge,
            WholeOp::Barrier(replica) => Command::Add(replica),
        }
    }
}
