//! All sessions of a run: they are let in before any is served, and taken back when all have ended.

ghost use Rattle.std.specs.Prelude.{◌≡◌, ◌++◌, ◌≤◌, [], true, vec_len, vec_capacity, IfOk, OnOk, OnErr};
ghost use Rattle.outer_traits.specs.Causes.{HasOuterCause};
ghost use Rattle.door_traits.specs.Sessions.{AreUnfailed, Come, GoBack, told_all};

use crate::client::Client;
use crate::doors::Doors;
use outer_traits::Outer;
use std::alloc::Global;

/// Opens the doors at an address, and lets so many sessions in. Where that fails, or memory runs out, those that are in
/// by then are taken back.
pub fn accept_all<D: Doors>(
    alloc: Global,
    doors: &mut D,
    address: &str,
    count: usize,
) -> Outer<Vec<Client<D::In, D::Out>>>
    ensures count { IfOk result (λ sessions. vec_len sessions ≡ count) }
    ensures unfailed { IfOk result (λ sessions. AreUnfailed D.In.faults D.Out.faults sessions.items) }
    ensures come { D.tells ≡ true → IfOk result (λ sessions. Come (D.coming doors.old) (D.coming doors.new)
        (told_all D.In.left D.In.faults D.Out.contents D.Out.faults sessions.items)) }
    ensures back { OnOk result (D.back doors.new ≡ D.back doors.old) }
    ensures gone { D.tells ≡ true → OnErr result (GoBack count (D.coming doors.old) (D.coming doors.new)
        (D.back doors.old) (D.back doors.new)) }
    ensures cause { HasOuterCause (D.faults doors.old) (D.faults doors.new) result }
{
    let mut sessions = Vec::with_capacity(alloc, count)?;
    doors.open(address)?;
    match let_in(doors, count, &mut sessions) {
        Ok(()) => Ok(sessions),
        Err(e) => {
            take_back_all(doors, sessions);
            Err(e)
        }
    }
}

/// Lets so many sessions in, unless the doors fail before. There is room for them.
fn let_in<D: Doors>(
    doors: &mut D,
    count: usize,
    sessions: &mut Vec<Client<D::In, D::Out>>,
) -> Outer<()>
    requires none { sessions.old.items ≡ [] }
    requires room { count ≤ vec_capacity sessions.old }
    ensures count { OnOk result (vec_len sessions.new ≡ count) }
    ensures few { vec_len sessions.new ≤ count }
    ensures unfailed { AreUnfailed D.In.faults D.Out.faults sessions.new.items }
    ensures come { D.tells ≡ true → Come (D.coming doors.old) (D.coming doors.new)
        (told_all D.In.left D.In.faults D.Out.contents D.Out.faults sessions.new.items) }
    ensures back { D.back doors.new ≡ D.back doors.old }
    ensures cause { HasOuterCause (D.faults doors.old) (D.faults doors.new) result }
{
    for _ in 0..count {
        let (source, sink) = doors.accept()?;
        sessions.push(Client { source, sink }).unwrap();
    }
    Ok(())
}

/// Takes sessions back, in their order.
pub fn take_back_all<D: Doors>(doors: &mut D, sessions: Vec<Client<D::In, D::Out>>)
    ensures coming { D.coming doors.new ≡ D.coming doors.old }
    ensures back { D.tells ≡ true → D.back doors.new ≡ D.back doors.old
        ++ told_all D.In.left D.In.faults D.Out.contents D.Out.faults sessions.items }
    ensures faults { D.faults doors.new ≡ D.faults doors.old }
{
    for session in sessions {
        doors.take_back(session.source, session.sink);
    }
}
