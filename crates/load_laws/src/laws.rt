//! What follows from the definitions alone. Each law is a contract.

ghost use Rattle.std.specs.Prelude.{◌≡◌, ◌≤◌, ◌^◌, ℕ, List};
ghost use Rattle.load_laws.specs.Load.{blank_disk, fresh, IsLoad, IsRunOfLoad};
ghost use Rattle.load_laws.specs.Result.{IsResultOf, HaveOneResult};
ghost use Rattle.volume_model.specs.declared.call.Call.{Call};
ghost use Rattle.volume_model.specs.declared.entry.Entry.{Entry};
ghost use Rattle.volume_model.specs.OneWorker.{Store, call_count, served, stream_of};

/// A run of a generated load has the result that its calls have, whichever way they came one between the other: so two runs
/// of one load have one result.
pub fn a_load_has_one_result()
    ensures result { (slices : ℕ) (counted : ℕ → ℕ → ℕ) (calls : ℕ → List Call) (journal : List Entry)
        → IsRunOfLoad slices counted calls journal → IsResultOf slices calls journal }
    ensures one { (slices : ℕ) (counted counted_too : ℕ → ℕ → ℕ) (calls : ℕ → List Call) (journal other : List Entry)
        → IsRunOfLoad slices counted calls journal → IsRunOfLoad slices counted_too calls other
        → HaveOneResult slices journal other }
{}

/// One worker that answers the streams of a load, one after another, makes a run of it. So each run has the result of that.
pub fn one_worker_runs_a_load()
    ensures run { (store : Store) (slices : ℕ) (streams : List (List Call)) → IsLoad slices (stream_of streams)
        → call_count streams ≤ 2 ^ 64
        → IsRunOfLoad slices (λ stream replica. 0) (stream_of streams) (served store (fresh (blank_disk slices)) streams) }
    ensures one { (store : Store) (slices : ℕ) (counted : ℕ → ℕ → ℕ) (streams : List (List Call)) (journal : List Entry)
        → IsRunOfLoad slices counted (stream_of streams) journal → call_count streams ≤ 2 ^ 64
        → HaveOneResult slices journal (served store (fresh (blank_disk slices)) streams) }
{}
