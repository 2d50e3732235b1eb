//! One list in which each kind of step is taken.

use core_laws::{
    BackupStep, Bytes, Call, Command, FoldOrDrop, LayerName, MaintStep, Mode, PageRef, RebuildStep,
    Reply, SnapName, Step, TicketNumber, VolumeSize, WholeOp, World, run_steps,
};
use std::alloc::{AllocError, Global};
use std::test::Fail;
use volume_backup::{Pages, backup_pages, is_calm, is_live, snap_page};

/// The ticket of each call: tickets have the lowest numbers that are free, and one is out at a time.
fn ticket() -> TicketNumber {
    TicketNumber::of(0)
}

fn maint(steps: &mut Vec<Step>, step: MaintStep) -> Result<(), AllocError> {
    steps.push(Step::Maint(step))?;
    Ok(())
}

fn rebuild(steps: &mut Vec<Step>, step: RebuildStep) -> Result<(), AllocError> {
    steps.push(Step::Rebuild(step))?;
    Ok(())
}

/// The stream enrols a read or a write of the first byte.
fn enrol(steps: &mut Vec<Step>, call: Call) -> Result<(), AllocError> {
    steps.push(Step::Enrol { stream: 0, call })?;
    Ok(())
}

/// All of a write.
fn write(steps: &mut Vec<Step>, alloc: Global) -> Result<(), AllocError> {
    let ticket = ticket();
    let bytes = Bytes::from_vec([7].to_vec(alloc)?)?;
    enrol(steps, Call::Write { offset: 0, bytes })?;
    steps.push(Step::Admit(ticket))?;
    for replica in 0..2 {
        steps.push(Step::ApplyWrite { ticket, replica })?;
        steps.push(Step::Ack { ticket, replica })?;
    }
    steps.push(Step::Complete(ticket))?;
    Ok(())
}

fn a_read() -> Call {
    let (offset, length) = (0, 1);
    Call::Read { offset, length }
}

/// All of a read, one that is taken back, and a ping.
fn read(steps: &mut Vec<Step>) -> Result<(), AllocError> {
    let (ticket, replica) = (ticket(), 0);
    enrol(steps, a_read())?;
    steps.push(Step::Admit(ticket))?;
    steps.push(Step::ApplyRead { ticket, replica })?;
    steps.push(Step::Ack { ticket, replica })?;
    steps.push(Step::Complete(ticket))?;
    enrol(steps, a_read())?;
    steps.push(Step::Withdraw(ticket))?;
    let (stream, call) = (0, Call::Ping);
    steps.push(Step::AnswerNow { stream, call })?;
    Ok(())
}

/// A command asks for the maintenance turn, and has it.
fn begin(steps: &mut Vec<Step>, command: Command) -> Result<(), AllocError> {
    maint(steps, MaintStep::Enrol { stream: 0, command })?;
    maint(steps, MaintStep::Admit(ticket()))
}

/// All of an operation on the whole volume.
fn operate(steps: &mut Vec<Step>, op: WholeOp) -> Result<(), AllocError> {
    let ticket = ticket();
    maint(steps, MaintStep::EnrolWhole { stream: 0, op })?;
    maint(steps, MaintStep::AdmitWhole(ticket))?;
    for replica in 0..2 {
        maint(steps, MaintStep::Part { ticket, replica })?;
        maint(steps, MaintStep::AckWhole { ticket, replica })?;
    }
    maint(steps, MaintStep::CompleteWhole(ticket))
}

/// A command gives the turn back, another is taken back, and so is a snapshot: nothing of them stands in the journal.
fn take_back(steps: &mut Vec<Step>, c: SnapName) -> Result<(), AllocError> {
    let (stream, ticket, op) = (0, ticket(), WholeOp::Snapshot(c));
    begin(steps, Command::Purge)?;
    maint(steps, MaintStep::Abandon(ticket))?;
    let command = Command::Purge;
    maint(steps, MaintStep::Enrol { stream, command })?;
    maint(steps, MaintStep::Withdraw(ticket))?;
    maint(steps, MaintStep::EnrolWhole { stream, op })?;
    maint(steps, MaintStep::WithdrawWhole(ticket))
}

/// A page of a snapshot's copy is read, and is given to nobody.
fn read_page(steps: &mut Vec<Step>, name: LayerName) -> Result<(), AllocError> {
    let (replica, page) = (0, 0);
    steps.push(Step::Backup(BackupStep::SnapPage {
        replica,
        name,
        page,
    }))?;
    Ok(())
}

/// The first of two snapshots is removed, and purged: the second is folded onto it.
fn remove_and_purge(
    steps: &mut Vec<Step>,
    parent: LayerName,
    child: LayerName,
) -> Result<(), AllocError> {
    let (ticket, page, reply) = (ticket(), 0, Reply::Done);
    begin(steps, Command::Remove(parent))?;
    operate(steps, WholeOp::Remove(parent))?;
    begin(steps, Command::Purge)?;
    for replica in 0..2 {
        let fold = MaintStep::FoldPage {
            replica,
            parent,
            page,
        };
        maint(steps, fold)?;
    }
    operate(steps, WholeOp::Purge(FoldOrDrop::Fold { parent, child }))?;
    maint(steps, MaintStep::End { ticket, reply })
}

/// The first page of a layer goes out and is given to nobody, and then it goes over.
fn copy(steps: &mut Vec<Step>, layer: LayerName) -> Result<(), AllocError> {
    rebuild(steps, RebuildStep::CopyOut(PageRef { layer, page: 0 }))?;
    rebuild(steps, RebuildStep::CopyIn(PageRef { layer, page: 0 }))
}

/// The second replica fails with a line to it, and is rebuilt: these are the layers that go over.
fn fail_and_add(
    steps: &mut Vec<Step>,
    lower: LayerName,
    upper: LayerName,
) -> Result<(), AllocError> {
    let (stream, replica, count) = (0, 1, 1);
    steps.push(Step::Fault {
        stream,
        replica,
        count,
    })?;
    begin(steps, Command::Add(replica))?;
    operate(steps, WholeOp::Barrier(replica))?;
    copy(steps, lower)?;
    copy(steps, upper)?;
    rebuild(steps, RebuildStep::Promote(ticket()))
}

fn each_kind(alloc: Global) -> Result<Vec<Step>, Fail> {
    let (a, b) = (SnapName::read(b"a")?, SnapName::read(b"b")?);
    let mut steps = Vec::new(alloc);
    read(&mut steps)?;
    take_back(&mut steps, SnapName::read(b"c")?)?;
    write(&mut steps, alloc)?;
    operate(&mut steps, WholeOp::Snapshot(a))?;
    write(&mut steps, alloc)?;
    operate(&mut steps, WholeOp::Snapshot(b))?;
    read_page(&mut steps, a.into())?;
    remove_and_purge(&mut steps, a.into(), b.into())?;
    fail_and_add(&mut steps, b.into(), LayerName::sys(2))?;
    Ok(steps)
}

fn may_go_to_a_thread<T: Send>(_: &T) {}

#[test]
fn each_kind_of_step_is_taken(rt: HostRuntime) -> Result<(), Fail> {
    let alloc = rt.alloc();
    let mut world = World::blank(alloc, VolumeSize::new(2_097_152)?, 2, 1)?;
    may_go_to_a_thread(&world);
    run_steps(&mut world, alloc, &each_kind(alloc)?)?;
    assert_eq!(rt;
        (world.journal.len(), world.mode(0), world.mode(1)),
        (13, Mode::Rw, Mode::Rw)
    );
    Ok(())
}

#[test]
fn a_page_of_a_snapshot_is_given(rt: HostRuntime) -> Result<(), Fail> {
    let alloc = rt.alloc();
    let mut world = World::blank(alloc, VolumeSize::new(2_097_152)?, 2, 1)?;
    run_steps(&mut world, alloc, &each_kind(alloc)?)?;
    let name = LayerName::from(SnapName::read(b"b")?);
    let mut into = vec![in alloc; 1; 2_097_152]?;
    let given = snap_page(&mut world, 1, &name, 0, &mut into);
    assert_eq!(rt; (given.is_ok(), into[0], into[1]), (true, 7, 0));
    Ok(())
}

#[test]
fn a_backup_is_told_which_pages_it_reads(rt: HostRuntime) -> Result<(), Fail> {
    let alloc = rt.alloc();
    let mut world = World::blank(alloc, VolumeSize::new(2_097_152)?, 2, 1)?;
    run_steps(&mut world, alloc, &each_kind(alloc)?)?;
    let (lower, upper) = (LayerName::from(SnapName::read(b"b")?), LayerName::sys(2));
    assert!(rt; is_calm(&world));
    assert!(rt; is_live(&world, &lower));
    assert!(rt; is_live(&world, &upper));
    let all = backup_pages(&world, alloc, &upper, &None)?;
    let above = backup_pages(&world, alloc, &upper, &Some(lower))?;
    assert!(rt; matches!(&all, Pages::All(pages) if pages.len() == 1 && pages[0] == 0));
    assert!(rt; matches!(&above, Pages::Above(pages) if pages.is_empty()));
    Ok(())
}
