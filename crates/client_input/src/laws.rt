//! What follows for those that serve inputs. Each law is a contract.

ghost use Rattle.std.specs.Prelude.{◌≡◌, ℕ, List, length};
ghost use Rattle.frame_stream.specs.Frames.{BeginWithCalls};
ghost use Rattle.frame_stream.specs.declared.frame.Frame.{Frame};
ghost use Rattle.client_input.specs.Inputs.{IsCalls, IsCutOff};

/// As many calls as an input begins with are settled by it, and so is what stands behind them.
pub fn an_input_begins_one_way()
    ensures { (input rest more : List ℕ) (frames also : List Frame) → BeginWithCalls input frames rest
        → BeginWithCalls input also more → length frames ≡ length also → (frames ≡ also) × (rest ≡ more) }
{}

/// An input is calls to its end or to a Close, or it is cut off, and never both; which calls, and where, is settled by it.
pub fn an_input_ends_one_way()
    ensures calls { (input : List ℕ) (frames also : List Frame) → IsCalls input frames
        → IsCalls input also → frames ≡ also }
    ensures cut { (input : List ℕ) (frames also : List Frame) (place other : ℕ)
        → IsCutOff input frames place → IsCutOff input also other → (frames ≡ also) × (place ≡ other) }
    ensures never_both { (input : List ℕ) (frames also : List Frame) (place : ℕ)
        → IsCalls input frames → IsCutOff input also place → ⊥ }
{}
