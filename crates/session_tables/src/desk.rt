//! A desk with a blank volume of one replica, for two sessions.

ghost use Rattle.std.specs.Prelude.{◌+◌, ◌<◌, IfOk, OnOk};
ghost use Rattle.session_tables.specs.Tables.{IsFirst, IsSitting};

use client_worker::Channel;
use outer_memory::NoFaultLine;
use outer_traits::Ends;
use session_serve::{Desk, Seat, Session, WorldOnDesk};
use std::alloc::{AllocError, Global};
use vol_units::VolumeSize;
use world_holder::{AtSeat, World, lay_down};

/// A session, and its seat.
#[derive(Drop)]
pub struct Sitting {
    pub seat: Seat<WorldOnDesk>,
    pub session: Session<NoFaultLine>,
}

/// The desk, and its first seat.
pub fn a_desk(
    alloc: Global,
    size: VolumeSize,
) -> Result<(Desk<WorldOnDesk>, Seat<WorldOnDesk>), AllocError>
    ensures { IfOk result (λ r. IsFirst 0 r.0 r.1) }
{
    let world = World::blank(alloc, size, 1, 2)?;
    let held = Box::new(alloc, world)?;
    let laid = lay_down(alloc, held)?;
    Ok(laid)
}

/// The session of the next seat, with a line that never fails.
pub fn sit_down(
    alloc: Global,
    desk: &Desk<WorldOnDesk>,
    first: &mut Seat<WorldOnDesk>,
    number: u8,
) -> Result<Sitting, AllocError>
    requires first { IsFirst number desk.now first.old }
    requires next { number < 2 }
    ensures first { OnOk result (IsFirst (number + 1) desk.now first.new) }
    ensures sits { IfOk result (IsSitting desk.now number) }
{
    let ends = Ends {
        worker: number,
        replica: 0,
    };
    let mut channels = Vec::with_capacity(alloc, 1)?;
    channels.push(Channel::new(NoFaultLine { ends }))?;
    let at = AtSeat::split_off(desk, first, number);
    Ok(Sitting {
        seat: at.seat,
        session: Session::new(alloc, number, channels),
    })
}
