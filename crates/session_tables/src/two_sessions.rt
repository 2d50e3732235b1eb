//! Two sessions on one desk.

use crate::calls::SIZE;
use crate::desk::{a_desk, sit_down};
use crate::judge::judge;
use crate::sessions::{call_both, join_both};
use std::test::Fail;
use vol_units::VolumeSize;
use world_holder::take_up;

#[test]
fn two_sessions_of_ten_thousand_calls_make_one_legal_journal(rt: HostRuntime) -> Result<(), Fail> {
    let alloc = rt.alloc();
    let size = VolumeSize::new(SIZE)?;
    let (desk, mut first) = a_desk(alloc, size)?;
    let one = sit_down(alloc, &desk, &mut first, 0)?;
    let other = sit_down(alloc, &desk, &mut first, 1)?;
    let (one, other, served) = call_both(&rt, alloc, &desk, one, other);
    assert!(rt; served);
    join_both(&desk, &mut first, one, other);
    let world = take_up(desk, first);
    judge(&rt, alloc, &world.journal)
}
