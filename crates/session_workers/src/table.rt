//! A desk with a blank volume, and room for all that is made of the clients.

ghost use Rattle.std.specs.Prelude.{◌≤◌, IfOk};
ghost use Rattle.session_workers.specs.Tasks.{IsLaidTable};

use crate::task::Task;
use door_traits::Client;
use run_report::EndedSession;
use std::alloc::{AllocError, Global};
use vol_units::VolumeSize;
use world_holder::{Desk, Seat, World, WorldOnDesk, lay_down};

/// A desk and its first seat. All room is made before a client is touched, so that none is lost.
#[derive(Drop)]
pub(crate) struct Table<I: Drop, O: Drop> {
    pub(crate) desk: Desk<WorldOnDesk>,
    pub(crate) first: Seat<WorldOnDesk>,
    pub(crate) tasks: Vec<Task<I, O>>,
    pub(crate) clients: Vec<Client<I, O>>,
    pub(crate) ended: Vec<EndedSession>,
}

/// A table for so many sessions.
pub(crate) fn lay_table<I: Drop, O: Drop>(
    alloc: Global,
    size: VolumeSize,
    replicas: u8,
    sessions: u8,
) -> Result<Table<I, O>, AllocError>
    requires replicas { (1 ≤ replicas) × (replicas ≤ 8) }
    requires sessions { 1 ≤ sessions }
    ensures { IfOk result (IsLaidTable size replicas sessions) }
{
    let world = World::blank(alloc, size, replicas, sessions)?;
    let held = Box::new(alloc, world)?;
    let tasks = Vec::with_capacity(alloc, sessions as usize)?;
    let clients = Vec::with_capacity(alloc, sessions as usize)?;
    let ended = Vec::with_capacity(alloc, sessions as usize)?;
    let (desk, first) = lay_down(alloc, held)?;
    Ok(Table {
        desk,
        first,
        tasks,
        clients,
        ended,
    })
}
