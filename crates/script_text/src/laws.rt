//! What follows from the definitions alone. Each law is a contract.

ghost use Rattle.std.specs.Prelude.{◌≡◌, ◌⊎◌, ◌+◌, ◌<◌, ◌≤◌, List, ℕ, length, slice_get, count_by, All, Some, false};
ghost use Rattle.frame_stream.specs.Asked.{asked_of, call_of};
ghost use Rattle.script_head.specs.LinePlans.{NoPairTwice, planned};
ghost use Rattle.script_text.specs.Generated.{CanGenerate, KeepsToPage, frames_of, control_commands, generated};
ghost use Rattle.script_text.specs.Good.{IsGoodStream, AreCarries, IsGoodPlan, IsGood, backs_up};
ghost use Rattle.script_text.specs.Script.{IsScript, IsNoScript};
ghost use Rattle.script_text.specs.Streams.{IsStream};
ghost use Rattle.frame_stream.specs.declared.asked.Asked.TheVariants as asked;
ghost use Rattle.frame_stream.specs.declared.frame.Frame.{Frame};
ghost use Rattle.script_text.specs.declared.script.Script.{Script};
ghost use Rattle.script_text.specs.declared.script.Stream.TheVariants as stream;
ghost use Rattle.script_text.specs.declared.what.What.{What};

/// An input is one script, or is none for one reason at one place, and never both.
pub fn an_input_has_one_answer()
    ensures either { (input : List ℕ) → ((script : Script) × IsScript input script)
        ⊎ ((place : ℕ) × (why : What) × IsNoScript input place why) }
    ensures not_both { (input : List ℕ) (script : Script) (place : ℕ) (why : What)
        → IsScript input script → IsNoScript input place why → ⊥ }
    ensures one_script { (input : List ℕ) (a b : Script) → IsScript input a → IsScript input b → a ≡ b }
    ensures one_refusal { (input : List ℕ) (p q : ℕ) (v w : What)
        → IsNoScript input p v → IsNoScript input q w → (p ≡ q) × (v ≡ w) }
{}

/// The frames of a stream ask calls.
pub fn a_stream_is_calls()
    ensures { (bytes : List ℕ) (frames : List Frame)
        → IsStream bytes frames → All (λ f. asked_of f ≡ asked.Call (call_of f)) frames }
{}

/// A script is run on one to eight replicas.
pub fn a_script_has_few_replicas()
    ensures { (input : List ℕ) (script : Script) → IsScript input script
        → (1 ≤ script.replicas) × (script.replicas ≤ 8) }
{}

/// And has one to sixteen streams.
pub fn a_script_has_few_streams()
    ensures { (input : List ℕ) (script : Script) → IsScript input script
        → (1 ≤ length script.streams) × (length script.streams ≤ 16) }
{}

/// Its frames ask calls, and its commands are such as it may have, of replicas that are there.
pub fn a_script_has_good_streams()
    ensures { (input : List ℕ) (script : Script)
        → IsScript input script → All (IsGoodStream script.replicas) script.streams }
{}

/// One of its streams at most has backups.
pub fn a_script_backs_up_in_one_stream()
    ensures { (input : List ℕ) (script : Script)
        → IsScript input script → count_by backs_up script.streams ≤ 1 }
{}

/// Its plans are of lines that are there.
pub fn a_script_has_good_plans()
    ensures { (input : List ℕ) (script : Script) → IsScript input script
        → All (IsGoodPlan (length script.streams) script.replicas) script.lines }
{}

/// None of them is of the line of another.
pub fn a_script_plans_a_line_once()
    ensures { (input : List ℕ) (script : Script)
        → IsScript input script → NoPairTwice script.lines }
{}

/// What is planned of any line are carries that rise.
pub fn a_script_plans_rising_carries()
    ensures { (input : List ℕ) (script : Script) (worker replica : ℕ)
        → IsScript input script → AreCarries (planned script.lines worker replica) }
{}

/// So it is good.
pub fn a_script_is_good()
    ensures { (input : List ℕ) (script : Script) → IsScript input script → IsGood script }
{}

/// So is each generated script.
pub fn a_generated_script_is_good()
    ensures { (number streams calls : ℕ)
        → CanGenerate streams calls → IsGood (generated number streams calls) }
{}

/// Its streams are so many of frames, each with a page of its own, and then the control stream. None has backups.
pub fn a_generated_script_has_these_streams()
    ensures count { (number streams calls : ℕ)
        → length (generated number streams calls).streams ≡ streams + 1 }
    ensures frames { (number streams calls page : ℕ) → page < streams
        → slice_get (generated number streams calls).streams page
        ≡ Some (stream.Frames (frames_of number calls page)) }
    ensures control { (number streams calls : ℕ)
        → slice_get (generated number streams calls).streams streams
        ≡ Some (stream.Control control_commands) }
    ensures backups { (number streams calls : ℕ)
        → All (λ s. backs_up s ≡ false) (generated number streams calls).streams }
{}

/// The frames of each are so many, and they read and write within its page alone.
pub fn a_generated_stream_keeps_to_its_page()
    ensures count { (number calls page : ℕ) → length (frames_of number calls page) ≡ calls }
    ensures page { (number calls page : ℕ)
        → All (λ f. KeepsToPage page (call_of f)) (frames_of number calls page) }
{}
