use range_turns::Turns;
use std::test::Fail;

#[test]
fn room_is_made_for_tickets(rt: HostRuntime) -> Result<(), Fail> {
    let mut turns = Turns::with_room(rt.alloc(), 2)?;
    turns.reserve(4)?;
    assert_eq!(rt; turns.spare(), 4);
    Ok(())
}
