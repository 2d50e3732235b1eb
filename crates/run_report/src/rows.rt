//! Worked rows of the report, computed by the checker: of replicas that were opened, of calls on small disks, and of what a run
//! leaves; and of served sessions.

ghost use Rattle.std.specs.Prelude.{◌≡◌, ◌∷◌, ◌++◌, [], map, codes, pos, replicate, true, false, Some, None};
ghost use Rattle.digest.specs.Digest.{digest_text};
ghost use Rattle.volume_model.specs.declared.command.Command.TheVariants as command;
ghost use Rattle.volume_model.specs.declared.call.Call.TheVariants as call;
ghost use Rattle.volume_model.specs.declared.call.Reply.TheVariants as reply;
ghost use Rattle.volume_model.specs.declared.call.Refusal.TheVariants.{NoReplica, BackupExists, BlockDiffers, TargetFault};
ghost use Rattle.volume_model.specs.PlainState.{state_of};
ghost use Rattle.volume_model.specs.Replay.{replay};
ghost use Rattle.volume_model.specs.Snapshots.{chain_of};
ghost use Rattle.volume_model.specs.OneWorker.{no_store, served};
ghost use Rattle.volume_model.specs.declared.entry.Entry.TheVariants as entry;
ghost use Rattle.volume_model.specs.declared.mark.FoldOrDrop.TheVariants as part;
ghost use Rattle.volume_model.specs.declared.mark.Mark.TheVariants as mark;
ghost use Rattle.volume_model.specs.declared.mode.Mode.TheVariants as mode;
ghost use Rattle.run_report.specs.declared.reason.Reason.TheVariants as reason;
ghost use Rattle.run_report.specs.declared.session_line.SessionEnd.TheVariants as end;
ghost use Rattle.run_report.specs.Lines.{reason_text, opening_line, call_text, reply_text, reply_line, mode_line, chain_line};
ghost use Rattle.run_report.specs.Lines.{head_line};
ghost use Rattle.run_report.specs.Report.{opening_lines, journal_lines, call_lines};
ghost use Rattle.run_report.specs.Sessions.{session_line, session_lines, sessions_report};
ghost use Rattle.run_report.specs.Summary.{stream_line, control_line, modes_line, disk_line, summary_of, frames_from, summary_in};

use crate::reason::Reason;

/// What is printed of replicas that were opened: of one that is read, of one that differs in its head, of one that has another
/// layer, and of none.
pub fn the_opening_reads()
    ensures two { opening_lines 0 (None ∷ Some (reason_text (reason.Differs None 3)) ∷ [])
        ≡ codes "open r0 RW\nopen r1 ERR differs head 3\n" }
    ensures shape { opening_line 2 (Some (reason_text (reason.Shape (Some (codes "s"))))) ≡ codes "open r2 ERR shape s\n" }
    ensures unopened { opening_lines 0 [] ≡ [] }
{}

/// How it reads that a folder is unclean.
pub fn a_dirty_folder_reads() -> Reason<'static>
    ensures { reason_text result ≡ codes "unclean Dirty" }
{
    Reason::Unclean("Dirty")
}

/// How it reads that a file is damaged.
pub fn a_damaged_file_reads() -> Reason<'static>
    ensures { reason_text result ≡ codes "damaged volume.meta 0" }
{
    Reason::Damaged {
        file: "volume.meta",
        place: 0,
    }
}

/// What is printed of a write that was done, of a read, of a read past the end, and of a ping.
pub fn the_report_reads()
    ensures done { call_lines (((record { seq = 1; kind = 1; offset = pos 1; size = 1; len = 1 })
        ∷ (record { seq = 2; kind = 0; offset = pos 0; size = 4; len = 0 }) ∷ []) ∷ [])
        (served no_store (record { state = state_of (0 ∷ 0 ∷ 0 ∷ 0 ∷ []); modes = mode.Rw ∷ [] })
        ((call.Write (pos 1) (97 ∷ []) ∷ call.Read (pos 0) 4 ∷ []) ∷ []))
        ≡ codes "0 0 0 0 write 1 1 61*1 ok\n1 1 0 1 read 0 4 ok 00*1,61*1,00*2\nreply 0 0 1 2 1 1 -\nreply 0 1 2 2 0 4 00*1,61*1,00*2\n" }
    ensures refused { call_lines (((record { seq = 9; kind = 0; offset = pos 5; size = 1; len = 0 })
        ∷ (record { seq = 8; kind = 6; offset = pos 0; size = 0; len = 0 }) ∷ []) ∷ [])
        (served no_store (record { state = state_of (0 ∷ []); modes = mode.Rw ∷ [] })
        ((call.Read (pos 5) 1 ∷ call.Ping ∷ []) ∷ []))
        ≡ codes "0 0 0 0 read 5 1 error out of range\n1 1 0 1 ping ok\nreply 0 0 9 3 5 12 6f*1,75*1,74*1,20*1,6f*1,66*1,20*1,72*1,61*1,6e*1,67*1,65*1\nreply 0 1 8 2 0 0 -\n" }
{}

/// What is printed of a control stream between two others: its commands have no replies of their own.
pub fn the_commands_read()
    ensures { call_lines (((record { seq = 5; kind = 1; offset = pos 0; size = 1; len = 1 }) ∷ []) ∷ []
        ∷ ((record { seq = 6; kind = 0; offset = pos 0; size = 1; len = 0 }) ∷ []) ∷ [])
        (served no_store (record { state = state_of (97 ∷ []); modes = mode.Rw ∷ mode.Err ∷ [] })
        ((call.Write (pos 0) (98 ∷ []) ∷ [])
        ∷ map call.Command (command.Snapshot (codes "s") ∷ command.Status ∷ command.Revert (codes "s") ∷ command.Remove (codes "t") ∷ [])
        ∷ (call.Read (pos 0) 1 ∷ []) ∷ []))
        ≡ codes "0 0 0 0 write 0 1 62*1 ok\n1 1 1 0 snapshot s ok\n2 2 1 1 status ok layers 2 modes RW,ERR\n3 3 1 2 revert s ok\n4 4 1 3 remove t error no such snapshot\n5 5 2 0 read 0 1 ok 62*1\nreply 0 0 5 2 0 1 -\nreply 2 0 6 2 0 1 62*1\n" }
{}

/// What a backup reads as, and what the store has against it.
pub fn a_backup_reads()
    ensures call { call_text (call.Command (command.Backup (codes "b1") (codes "s"))) ≡ codes "backup b1 s" }
    ensures exists { reply_text (reply.Refused BackupExists) ≡ codes "error backup exists" }
    ensures differs { reply_text (reply.Refused BlockDiffers) ≡ codes "error block differs" }
    ensures fault { reply_text (reply.Refused TargetFault) ≡ codes "error target fault" }
{}

/// What is printed of marks, and of a purge that leaves nothing to fold or to drop.
pub fn the_marks_read()
    ensures each { journal_lines 0 (map entry.Mark (mark.Fault 3 1 12 ∷ mark.Failed 1 ∷ mark.Added 1 0 (codes "sys-7") ∷ mark.Promoted 1
        ∷ mark.Aborted 1 ∷ mark.Purged (part.Fold (codes "s") (codes "t")) ∷ mark.Purged (part.Drop (codes "b")) ∷ []))
        ≡ codes "0 mark fault 3 r1 12\n1 mark failed r1\n2 mark added r1 r0 sys-7\n3 mark promoted r1\n4 mark aborted r1\n5 mark folded s t\n6 mark dropped b\n" }
    ensures purge { call_lines ([] ∷ []) (served no_store (record { state = state_of (97 ∷ []); modes = mode.Rw ∷ [] })
        (map call.Command (command.Snapshot (codes "s") ∷ command.Remove (codes "s") ∷ command.Snapshot (codes "t") ∷ command.Purge ∷ []) ∷ []))
        ≡ codes "0 0 0 0 snapshot s ok\n1 1 0 1 remove s ok\n2 2 0 2 snapshot t ok\n3 mark folded s t\n4 3 0 3 purge ok\n" }
{}

/// What is printed of a rebuild that the mark at 5 ended, as a call's line and as a frame.
pub fn an_aborted_rebuild_reads()
    ensures call { reply_text (reply.Aborted 5) ≡ codes "error aborted 5" }
    ensures frame { reply_line (record { seq = 9; kind = 6; offset = pos 0; size = 0; len = 0 })
        (record { call = call.Ping; reply = reply.Aborted 5; index = 1; saw = 2; stream = 3 })
        ≡ codes "reply 3 1 9 3 0 9 61*1,62*1,6f*1,72*1,74*1,65*1,64*1,20*1,35*1\n" }
{}

/// What a status reads as.
pub fn a_status_reads()
    ensures none { reply_text (reply.Status 1 []) ≡ codes "ok layers 1 modes " }
    ensures one { reply_text (reply.Status 250 (mode.Rw ∷ [])) ≡ codes "ok layers 250 modes RW" }
    ensures three { reply_text (reply.Status 2 (mode.Rw ∷ mode.Wo ∷ mode.Err ∷ [])) ≡ codes "ok layers 2 modes RW,WO,ERR" }
{}

/// What is printed of a replica's mode, and of a chain.
pub fn the_end_reads()
    ensures failed { mode_line 0 mode.Err ≡ codes "mode r0 ERR\n" }
    ensures rebuilt { mode_line 12 mode.Wo ≡ codes "mode r12 WO\n" }
    ensures sound { mode_line 1 mode.Rw ≡ codes "mode r1 RW\n" }
    ensures alone { chain_line (Some 0) [] ≡ codes "chain r0 head\n" }
    ensures marked { chain_line (Some 0) (chain_of (replay (state_of (97 ∷ []))
        (served no_store (record { state = state_of (97 ∷ []); modes = mode.Rw ∷ [] })
        (map call.Command (command.Snapshot (codes "a") ∷ command.Snapshot (codes "b") ∷ command.Revert (codes "a")
        ∷ command.Snapshot (codes "c") ∷ command.Remove (codes "a") ∷ []) ∷ []))).volume.snapshots)
        ≡ codes "chain r0 head c a*\n" }
    ensures unsaid { chain_line None [] ≡ codes "chain head\n" }
{}

/// What is printed of a generated load: of a stream, of the commands, of the replicas, and of a disk.
pub fn the_summary_reads()
    ensures stream { stream_line 14 (codes "0f") ≡ codes "stream 14 0f\n" }
    ensures done { control_line
        (reply.Done ∷ reply.Done ∷ reply.Done ∷ reply.Done ∷ reply.Done ∷ [])
        ≡ codes "control ok,ok,ok,ok,ok\n" }
    ensures refused { control_line (reply.Done ∷ reply.Refused NoReplica ∷ [])
        ≡ codes "control ok,error no replica\n" }
    ensures modes { modes_line (mode.Rw ∷ mode.Rw ∷ []) ≡ codes "modes RW,RW\n" }
    ensures disk { disk_line (codes "0f") ≡ codes "disk 0f\n" }
    ensures failed { summary_of [] (reply.Done ∷ reply.Aborted 7 ∷ []) (mode.Err ∷ mode.Err ∷ [])
        None ≡ codes "control ok,error aborted 7\nmodes ERR,ERR\n" }
    ensures frames { frames_from 0
        (((record { seq = 3; kind = 0; offset = pos 1; size = 1; len = 0 }) ∷ []) ∷ [])
        (served no_store (record { state = state_of (0 ∷ 7 ∷ []); modes = mode.Rw ∷ [] })
        ((call.Read (pos 1) 1 ∷ []) ∷ []))
        ≡ (0x01 ∷ 0x1b ∷ 3 ∷ 0 ∷ 0 ∷ 0 ∷ 2 ∷ 0 ∷ 0 ∷ 0 ∷ 1 ∷ 0 ∷ 0 ∷ 0 ∷ 0 ∷ 0 ∷ 0 ∷ 0
        ∷ 1 ∷ 0 ∷ 0 ∷ 0 ∷ 1 ∷ 0 ∷ 0 ∷ 0 ∷ 7 ∷ []) ∷ [] }
    ensures journal { summary_in [] (record { state = state_of (0 ∷ []); modes = mode.Rw ∷ [] })
        (served no_store (record { state = state_of (0 ∷ []); modes = mode.Rw ∷ [] })
        ((call.Command (command.Fail 0) ∷ []) ∷ [])) ≡ codes "control ok\nmodes ERR\n" }
{}

/// What is printed of a session, by how it ended.
pub fn the_sessions_read()
    ensures closed { session_line 1 (record { end = end.Closed; calls = 0; seen = 0 })
        ≡ codes "session 1 closed 0 0\n" }
    ensures ended { session_line 0 (record { end = end.Ended; calls = 1; seen = 1 })
        ≡ codes "session 0 ended 1 1\n" }
    ensures frame { session_line 0 (record { end = end.Frame 26; calls = 1; seen = 1 })
        ≡ codes "session 0 frame 26 1 1\n" }
    ensures full { session_line 15 (record { end = end.Full; calls = 4096; seen = 65536 })
        ≡ codes "session 15 full 4096 65536\n" }
    ensures read_fault { session_line 2 (record { end = end.ReadFault; calls = 3; seen = 20 })
        ≡ codes "session 2 read fault 3 20\n" }
    ensures write_fault { session_line 3 (record { end = end.WriteFault; calls = 10; seen = 12 })
        ≡ codes "session 3 write fault 10 12\n" }
    ensures two { session_lines 0 ((record { end = end.Closed; calls = 2; seen = 3 })
        ∷ (record { end = end.Ended; calls = 1; seen = 2 }) ∷ [])
        ≡ codes "session 0 closed 2 3\nsession 1 ended 1 2\n" }
{}

/// What is printed of one session that reads a block of zeros, on one replica.
pub fn a_served_read_reads()
    ensures { sessions_report ((record { end = end.Ended; calls = 1; seen = 1 }) ∷ [])
        (record { state = state_of (replicate 4096 0); modes = mode.Rw ∷ [] })
        (served no_store (record { state = state_of (replicate 4096 0); modes = mode.Rw ∷ [] })
        ((call.Read (pos 0) 4096 ∷ []) ∷ []))
        ≡ codes "0 0 0 0 read 0 4096 ok 00*4096\nsession 0 ended 1 1\nmode r0 RW\nchain r0 head\n"
        ++ head_line 0 (digest_text (replicate 4096 0)) }
{}
