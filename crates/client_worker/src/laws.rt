//! What follows for those that run a stream. Each law is a contract.

ghost use Rattle.std.specs.Prelude.{◌≡◌, ℕ, List, Option};
ghost use Rattle.volume_model.specs.declared.call.Call.{Call};
ghost use Rattle.volume_model.specs.declared.entry.Entry.{Entry};
ghost use Rattle.volume_model.specs.History.{calls_of};
ghost use Rattle.frame_stream.specs.declared.frame.Frame.{Frame};
ghost use Rattle.frame_stream.specs.Frames.{IsCall};
ghost use Rattle.stream_steps.specs.Mine.{Log};
ghost use Rattle.client_worker.specs.Asks.{IsAsked};
ghost use Rattle.client_worker.specs.Serving.{AreServed};

/// A frame that a script has as a call is one that a worker takes.
pub fn a_call_of_a_script_is_taken()
    ensures { (f : Frame) → IsCall f → IsAsked f }
{}

/// The calls that were served are those of the stream's answers, each once and in order.
pub fn what_was_served_is_answered()
    ensures { (stream : ℕ) (log : Option Log) (cs : List Call) (es : List Entry)
        → AreServed stream log cs es → calls_of stream es ≡ cs }
{}
