ghost use Rattle.std.specs.Prelude.{◌≡◌};
ghost use Rattle.run_report.specs.Lines.{reason_text};
ghost use Rattle.volume_folders.specs.Reasons.{flag_text, difference_text, why_text};

use replica_compare::Difference;
use replica_open::{Damage, Flag};

/// Why a replica is not read from the opening on.
#[derive(Debug, Drop)]
pub enum Reason {
    /// Its folder was left dirty, or while it was rebuilt, or in ERR, or is of a volume of another size.
    Unclean(Flag),
    /// The first file of its folder that is damaged, and where.
    Damaged(Damage),
    /// How it first differs from the disk.
    Differs(Difference),
}

impl Reason {
    /// The same as a report tells it.
    pub fn told(&self) -> run_report::Reason<'_>
        ensures { reason_text result ≡ why_text self.now }
    {
        match self {
            Reason::Unclean(flag) => run_report::Reason::Unclean(flag_text(*flag)),
            Reason::Damaged(damage) => run_report::Reason::Damaged {
                file: damage.file.as_str(),
                place: damage.place,
            },
            Reason::Differs(how) => told_difference(*how),
        }
    }
}

fn told_difference(how: Difference) -> run_report::Reason<'static>
    ensures { reason_text result ≡ difference_text how }
{
    match how {
        Difference::Shape(layer) => run_report::Reason::Shape(layer),
        Difference::Reads(layer, block) => run_report::Reason::Differs { layer, block },
    }
}

/// The word of a flag.
fn flag_text(flag: Flag) -> &'static str
    ensures { result.now ≡ flag_text flag }
{
    match flag {
        Flag::Dirty => "Dirty",
        Flag::Rebuilding => "Rebuilding",
        Flag::Error => "Error",
        Flag::Size => "Size",
    }
}
