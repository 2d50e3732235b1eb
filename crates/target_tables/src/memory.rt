use crate::objects::{is_put_and_got, lists, put_some};
use outer_memory::FaultPlan;
use std::test::Fail;
use target_memory::{MemoryTarget, NoFaultTarget};
use target_traits::{OuterError, Target};

#[test]
fn an_object_is_put_and_got(rt: HostRuntime) -> Result<(), Fail> {
    is_put_and_got(&rt, &mut NoFaultTarget::new(rt.alloc()))
}

#[test]
fn names_are_listed_in_order(rt: HostRuntime) -> Result<(), Fail> {
    let mut target = NoFaultTarget::new(rt.alloc());
    put_some(&mut target)?;
    lists(
        &rt,
        &mut target,
        "backupstore/c/b",
        &[
            "backupstore/c/b10",
            "backupstore/c/b2",
            "backupstore/c/bx/1",
        ],
    )
}

#[test]
fn an_object_is_damaged_and_taken_away(rt: HostRuntime) -> Result<(), Fail> {
    let mut target = MemoryTarget::new(rt.alloc(), FaultPlan::none(rt.alloc()));
    target.put("a", b"abc")?;
    target.target.hold("a", b"abd")?;
    assert_eq!(rt; target.get("a", 9)?.as_deref(), Some(b"abd".as_slice()));
    target.target.take_away("a");
    assert!(rt; target.target.held("a").is_none());
    assert!(rt; target.get("a", 9)?.is_none());
    Ok(())
}

#[test]
fn the_call_that_was_planned_fails(rt: HostRuntime) -> Result<(), Fail> {
    let plan = FaultPlan::new(Vec::from_slice(rt.alloc(), &[2, 3, 4, 5])?);
    let mut target = MemoryTarget::new(rt.alloc(), plan);
    target.put("a", b"abc")?;
    assert_eq!(rt; target.put("a", b"x"), Err(OuterError::Failed));
    assert_eq!(rt; target.remove("a"), Err(OuterError::Failed));
    assert!(rt; target.get("a", 9) == Err(OuterError::Failed));
    assert!(rt; target.list("a") == Err(OuterError::Failed));
    assert_eq!(rt; target.get("a", 9)?.as_deref(), Some(b"abc".as_slice()));
    assert_eq!(rt; target.faults, 4);
    Ok(())
}
