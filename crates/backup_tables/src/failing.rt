use crate::copies::disk_of;
use crate::made::{FIRST, Restored, SECOND, make_two, restore_to, restores};
use backup_make::MakeError;
use backup_restore::Refusal;
use outer_memory::{FaultPlan, MemorySink, NoFaultSink};
use std::test::Fail;
use target_memory::MemoryTarget;

/// The calls of two backups: for the first a look for its cfg, two for each of two blocks, and two cfgs; for the second one
/// block less.
const CALLS: u64 = 7 + 5;

/// The fault that was planned, where it came.
fn fault_if(came: bool) -> Option<MakeError> {
    if came {
        Some(MakeError::TargetFault)
    } else {
        None
    }
}

#[test]
fn a_backup_that_was_made_is_restored_whichever_call_failed(rt: HostRuntime) -> Result<(), Fail> {
    let alloc = rt.alloc();
    for call in 1..=CALLS + 1 {
        let plan = FaultPlan::new(Vec::from_slice(alloc, &[call])?);
        let mut target = MemoryTarget::new(alloc, plan);
        let made = make_two(&rt, alloc, &mut target)?;
        let (first, second) = (made.first.err(), made.second.err());
        assert_eq!(rt; first, fault_if(call <= 7), "at call {call}");
        assert_eq!(rt;
            second,
            fault_if(7 < call && call <= CALLS),
            "at call {call}"
        );
        for (backup, fills, answer) in [("b1", &FIRST, first), ("b2", &SECOND, second)] {
            if answer.is_none() {
                restores(&rt, alloc, &mut target.target, backup, fills)?;
            } else {
                let mut sink = NoFaultSink::new(alloc, 1_000_000);
                let again = restore_to(alloc, &mut target.target, backup, &mut sink)?;
                assert_eq!(rt;
                    again,
                    Restored::Refused(Refusal::Missing),
                    "at call {call}"
                );
            }
        }
    }
    Ok(())
}

#[test]
fn a_restore_of_which_a_call_failed_writes_a_beginning(rt: HostRuntime) -> Result<(), Fail> {
    let alloc = rt.alloc();
    let disk = disk_of(alloc, &SECOND)?;
    let mut target = MemoryTarget::new(alloc, FaultPlan::none(alloc));
    make_two(&rt, alloc, &mut target)?.second?;
    // The cfg, and each of two blocks twice.
    for (call, pages) in [(1, 0), (2, 0), (3, 0), (4, 0), (5, 2), (6, 3)] {
        target.plan = FaultPlan::new(Vec::from_slice(alloc, &[call])?);
        let mut sink = NoFaultSink::new(alloc, 1_000_000);
        let answer = restore_to(alloc, &mut target, "b2", &mut sink)?;
        let wanted = if pages < 3 {
            Restored::TargetFault
        } else {
            Restored::Whole
        };
        assert_eq!(rt; answer, wanted, "at call {call}");
        assert!(rt; disk.starts_with(sink.bytes()), "at call {call}");
        assert_eq!(rt; sink.bytes().len(), pages * 2_097_152, "at call {call}");
    }
    Ok(())
}

#[test]
fn a_sink_that_fails_has_a_beginning(rt: HostRuntime) -> Result<(), Fail> {
    let alloc = rt.alloc();
    let disk = disk_of(alloc, &SECOND)?;
    let mut target = MemoryTarget::new(alloc, FaultPlan::none(alloc));
    make_two(&rt, alloc, &mut target)?.second?;
    // Each page is taken in 32 pieces.
    for pieces in [0u64, 1, 31, 32, 33, 64, 95, 96] {
        let plan = FaultPlan::new(Vec::from_slice(alloc, &[pieces + 1])?);
        let mut sink = MemorySink::new(alloc, 65_536, plan);
        let answer = restore_to(alloc, &mut target, "b2", &mut sink)?;
        let wanted = if pieces < 96 {
            Restored::WriteFault
        } else {
            Restored::Whole
        };
        assert_eq!(rt; answer, wanted, "at piece {pieces}");
        assert!(rt; disk.starts_with(sink.bytes()), "at piece {pieces}");
        assert_eq!(rt;
            sink.bytes().len() as u64,
            pieces * 65_536,
            "at piece {pieces}"
        );
    }
    Ok(())
}
