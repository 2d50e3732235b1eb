use outer_memory::MemoryWiring;
use outer_traits::{Ends, Wiring};
use std::test::Fail;

#[test]
fn a_line_is_made_and_taken_back(rt: HostRuntime) -> Result<(), Fail> {
    let mut wiring = MemoryWiring::new(rt.alloc(), 2, 8);
    let line = wiring.line(0, 1, &[3])?;
    wiring.take_back(line);
    let ends = Ends {
        worker: 0,
        replica: 1,
    };
    assert!(rt; wiring.frames(ends).is_some());
    Ok(())
}
