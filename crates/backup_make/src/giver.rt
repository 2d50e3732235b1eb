ghost use Rattle.std.specs.Prelude.{◌≡◌, true, Some, IfOk, IfErr, OnOk, option_map};
ghost use Rattle.backup_units.specs.Backups.{page_at};
ghost use Rattle.backup_make.specs.Giving.{Stays, KeepsGiver, Drops, Covers, HasPage, finds_none};

use std::alloc::{AllocError, Global};
use std::sync::Wait;
use vol_units::LayerName;

/// Which pages of a name's copy may be other than what is known of them, by their numbers.
#[derive(Debug, Drop)]
pub enum Pages {
    /// All but these are zeros.
    All(Vec<u32>),
    /// All but these are as in the base's copy.
    Above(Vec<u32>),
}

/// Why a page was not given.
#[derive(Clone, Copy, Debug, PartialEq, Eq)]
pub enum GiveError {
    /// No replica is left to be read.
    NoReplica,
    /// Memory ran out.
    NoMemory,
}

/// Where the pages of a backup come from: live names have copies, and the pages of one of them are asked for.
pub trait PageGiver {
    ghost use Rattle.std.specs.Prelude.{List, ℕ};
    ghost use Rattle.backup_make.specs.Giving.{Copies};

    // The copy of each live name.
    ghost copies: { Self → Copies };

    // The name that is asked for. No call changes it, nor its copy.
    ghost asked: { Self → List ℕ };

    // The page that was given last.
    ghost given: { Self → List ℕ };

    // No replica is left that could be read.
    ghost has_none: { Self → Type 0 };

    // What else is true of the giver for good, once it is.
    ghost Fact: { Type 0 };

    ghost lasts: { Self → Fact → Type 0 };

    // What no call changes.
    ghost Home: { Type 0 };

    ghost home: { Self → Home };

    // That the next call can be made.
    ghost ready: { Self → Type 0 };

    /// The pages that have to be read. The base keeps its copy, or is live no longer.
    fn pages<R: Wait>(
        &mut self,
        rt: &R,
        alloc: Global,
        base: Option<&LayerName>,
    ) -> Result<Pages, AllocError>
        requires ready { ready self.old }
        ensures keeps { KeepsGiver ready home lasts self.old self.new }
        ensures stays { Stays (copies self.old) (copies self.new) (asked self.old) (asked self.new) }
        ensures base { Drops (option_map (λ n. n.now) base.entry) (copies self.old) (copies self.new) }
        ensures ok { IfOk result (Covers (copies self.new) (asked self.new) (option_map (λ n. n.now) base.entry)) };

    /// Has a page of the name's copy given. The giver keeps it until it is to give the next one.
    fn page<R: Wait>(&mut self, rt: &R, alloc: Global, page: u32) -> Result<(), GiveError>
        requires ready { ready self.old }
        requires page { HasPage (copies self.old) (asked self.old) page }
        ensures keeps { KeepsGiver ready home lasts self.old self.new }
        ensures stays { Stays (copies self.old) (copies self.new) (asked self.old) (asked self.new) }
        ensures ok { OnOk result
            (option_map (λ disk. page_at disk page) (copies self.new (asked self.new)) ≡ Some (given self.new)) }
        ensures none { IfErr result (λ e. finds_none e ≡ true → has_none self.new) };

    /// The page that was given last, where the giver has it: no one copies it.
    fn given_page(&self) -> &[u8]
        ensures { result.now ≡ given self.now };
}
