//! Worked journals with faults and rebuilds: some that are legal, and some that are not.

ghost use Rattle.std.specs.Prelude.{◌≡◌, ℕ, List, ◌∷◌, [], pos};
ghost use Rattle.vol_units.specs.Name.{sys_name};
ghost use Rattle.volume_model.specs.declared.command.Command.TheVariants as command;
ghost use Rattle.volume_model.specs.declared.call.Call.TheVariants as call;
ghost use Rattle.volume_model.specs.declared.call.Reply.TheVariants as reply;
ghost use Rattle.volume_model.specs.declared.call.Refusal.TheVariants.{NoReplica};
ghost use Rattle.volume_model.specs.declared.entry.Entry.TheVariants as entry;
ghost use Rattle.volume_model.specs.declared.mark.FoldOrDrop.TheVariants as part;
ghost use Rattle.volume_model.specs.declared.mark.Mark.TheVariants as mark;
ghost use Rattle.volume_model.specs.declared.mode.Mode.TheVariants.{Rw, Wo, Err};
ghost use Rattle.volume_model.specs.Faults.{FaultsShown};
ghost use Rattle.volume_model.specs.Rebuilds.{AreBehindFalls};
ghost use Rattle.volume_model.specs.History.{IsLegal, StandInCommands};
ghost use Rattle.volume_model.specs.Journals.{on_replicas, said, told_to_fail, rebuilding, given_up, rebuilt_beside_a_write};

/// A replica fails and is rebuilt while a client writes, and is read once the other one has failed.
pub fn a_rebuild_beside_a_write_is_legal()
    ensures { IsLegal (on_replicas (Rw ∷ Rw ∷ [])) rebuilt_beside_a_write }
{}

/// How an `add` may not be answered.
pub fn an_add_ends_with_its_rebuild()
    ensures unasked { IsLegal (on_replicas (Rw ∷ Rw ∷ []))
        (told_to_fail 0 0 1 (said 2 1 1 (call.Command (command.Add 1)) reply.Done ∷ [])) → ⊥ }
    ensures unpromoted { IsLegal (on_replicas (Rw ∷ Rw ∷ []))
        (rebuilding (said 2 1 1 (call.Command (command.Add 1)) reply.Done ∷ [])) → ⊥ }
    ensures another_place { IsLegal (on_replicas (Rw ∷ Rw ∷ []))
        (rebuilding (entry.Mark (mark.Fault 1 1 1) ∷ entry.Mark (mark.Aborted 1)
        ∷ said 2 1 1 (call.Command (command.Add 1)) (reply.Aborted 3) ∷ [])) → ⊥ }
{}

/// A rebuild that is open may be given up. Its aborted mark is legal, but not behind the fall of its source or its target.
pub fn a_rebuild_may_be_given_up()
    ensures legal { IsLegal (on_replicas (Rw ∷ Rw ∷ [])) (rebuilding given_up) }
    ensures no_fall { AreBehindFalls (rebuilding given_up) → ⊥ }
    ensures another_falls { AreBehindFalls (rebuilding (entry.Mark (mark.Fault 1 2 1) ∷ given_up)) → ⊥ }
    ensures source_falls { AreBehindFalls (rebuilding (entry.Mark (mark.Fault 1 0 1) ∷ given_up)) }
    ensures not_open { IsLegal (on_replicas (Rw ∷ Err ∷ [])) given_up → ⊥ }
{}

/// Where a rebuild may not begin, and what may not be promoted.
pub fn a_rebuild_has_its_source()
    ensures source { IsLegal (on_replicas (Rw ∷ Rw ∷ []))
        (told_to_fail 0 0 1 (entry.Mark (mark.Added 1 1 (sys_name 0)) ∷ [])) → ⊥ }
    ensures not_failed { IsLegal (on_replicas (Rw ∷ Rw ∷ [])) (entry.Mark (mark.Added 1 0 (sys_name 0)) ∷ []) → ⊥ }
    ensures one_at_a_time { IsLegal (on_replicas (Rw ∷ Rw ∷ Err ∷ []))
        (rebuilding (entry.Mark (mark.Added 2 0 (sys_name 1)) ∷ [])) → ⊥ }
    ensures no_rebuild { IsLegal (on_replicas (Rw ∷ Wo ∷ []))
        (entry.Mark (mark.Promoted 1) ∷ said 0 1 0 (call.Command (command.Add 1)) reply.Done ∷ []) → ⊥ }
{}

/// Which marks of a fall may not stand.
pub fn a_replica_falls_once()
    ensures again { IsLegal (on_replicas (Rw ∷ Rw ∷ [])) (told_to_fail 0 0 1 (entry.Mark (mark.Fault 0 1 1) ∷ [])) → ⊥ }
    ensures same_count { FaultsShown (λ stream replica. 2)
        (entry.Mark (mark.Fault 0 1 1) ∷ entry.Mark (mark.Fault 0 1 1) ∷ []) → ⊥ }
    ensures another_call { IsLegal (on_replicas (Rw ∷ Rw ∷ []))
        (entry.Mark (mark.Failed 1) ∷ said 0 1 0 call.Ping reply.Done ∷ []) → ⊥ }
    ensures source_falls { IsLegal (on_replicas (Rw ∷ Rw ∷ []))
        (rebuilding (entry.Mark (mark.Fault 1 0 1) ∷ said 0 0 0 call.Ping reply.Done ∷ [])) → ⊥ }
{}

/// A rebuild begins in its add, and a part of a purge goes in its purge: between what that saw and its answer.
pub fn a_mark_stands_in_its_command()
    ensures rebuild { StandInCommands rebuilt_beside_a_write }
    ensures unasked { StandInCommands (rebuilding []) → ⊥ }
    ensures before { StandInCommands (rebuilding (said 3 1 1 (call.Command (command.Add 1)) reply.Done ∷ [])) → ⊥ }
    ensures another { StandInCommands (rebuilding (said 2 1 1 (call.Command (command.Add 0)) reply.Done ∷ [])) → ⊥ }
    ensures behind { (name : List ℕ) → StandInCommands (said 0 1 0 (call.Command command.Purge) reply.Done
        ∷ entry.Mark (mark.Purged (part.Drop name)) ∷ []) → ⊥ }
{}

/// When a call may not say that there is no replica, and when it has to.
pub fn a_call_wants_a_replica()
    ensures one_left { IsLegal (on_replicas (Err ∷ Rw ∷ []))
        (said 0 0 0 (call.Read (pos 0) 1) (reply.Refused NoReplica) ∷ []) → ⊥ }
    ensures none_left { IsLegal (on_replicas (Err ∷ Err ∷ []))
        (said 0 0 0 (call.Write (pos 0) (98 ∷ [])) reply.Done ∷ []) → ⊥ }
{}
