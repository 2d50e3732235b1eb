//! What follows from the definitions alone. Each law is a contract.

ghost use Rattle.std.specs.Prelude.{◌≡◌, ℕ, List, Option, take};
ghost use Rattle.volume_model.specs.declared.entry.Entry.{Entry};
ghost use Rattle.script_text.specs.declared.script.Script.{Script};
ghost use Rattle.script_text.specs.Generated.{generated};
ghost use Rattle.stream_turns.specs.Run.{HaveNotFailed, IsRun};
ghost use Rattle.stream_turns.specs.Volume.{blank_spot, heads_in};
ghost use Rattle.run_report.specs.Summary.{summary_in};
ghost use Rattle.summary_laws.specs.LoadText.{load_text};

/// A generated script that is run on a blank volume has one summary, whichever way its streams come one between the other.
/// The headers are those of its streams of frames: the control stream, behind them, has none.
pub fn a_load_has_one_summary()
    ensures { (number streams calls : ℕ) (script : Script) (counted : ℕ → ℕ → ℕ)
        (told : ℕ → ℕ → Option (List (List ℕ))) (journal : List Entry)
        → script ≡ generated number streams calls
        → IsRun counted told script (blank_spot script) journal → HaveNotFailed counted script
        → summary_in (take streams (heads_in script)) (blank_spot script) journal
        ≡ load_text number streams calls }
{}
