//! What follows from the definitions alone. Each law is a contract.

ghost use Rattle.std.specs.Prelude.{◌≢◌, ◌⊎◌, List, ℕ};
ghost use Rattle.script_head.specs.Head.{Says, RefusesLine};
ghost use Rattle.script_head.specs.declared.error.HeadError.{HeadError};
ghost use Rattle.script_head.specs.declared.error.HeadError.TheVariants.{NoMemory};
ghost use Rattle.script_head.specs.declared.head.ScriptHead.{ScriptHead};

/// Each line says something, or is refused for a reason of its own.
pub fn a_line_says_something_or_is_refused()
    ensures { (line : List ℕ) → ((head : ScriptHead) × Says line head)
        ⊎ ((why : HeadError) × (why ≢ NoMemory) × RefusesLine line why) }
{}
