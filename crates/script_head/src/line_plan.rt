ghost use Rattle.std.specs.Prelude.{◌≡◌};
ghost use Rattle.script_head.specs.LinePlans.{planned};

use volume_model::Sequence;

/// Which carries of the line from a worker to a replica fail.
#[derive(Debug, Drop)]
pub struct LinePlan {
    /// The number of the worker, which is that of its stream.
    pub worker: u8,
    pub replica: u8,
    /// The numbers of the carries, counted from 1, failed ones too.
    pub fail: Sequence<u32>,
}

/// The carries that fail of the line from a worker to a replica, by the first of the plans that is of
/// that line.
pub fn plan_of<'a>(lines: &'a [LinePlan], worker: u8, replica: u8) -> &'a [u32]
    ensures { result.now ≡ planned lines.now worker replica }
{
    for plan in lines {
        if plan.worker == worker && plan.replica == replica {
            return plan.fail.as_slice();
        }
    }
    &[]
}
