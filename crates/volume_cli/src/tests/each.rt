//! Runs in which each stream has a worker of its own.

use super::flag::Flag;
use super::runs::end_of;
use super::script::{Asks, Frame, script};
use outer_real::OpenGate;
use outer_traits::{Gate, Point};
use std::test::Fail;

/// Holds worker 1 before it carries until worker 0 has carried, and worker 0 there until a call of worker 1 was answered.
#[derive(Drop)]
struct Crossing {
    carried: Flag,
    ended: Flag,
    ran_out: Flag,
}

impl Crossing {
    fn new() -> Crossing {
        Crossing {
            carried: Flag::new(),
            ended: Flag::new(),
            ran_out: Flag::new(),
        }
    }

    /// Waits for the flag, or notes that the hold ran out.
    fn hold(&self, flag: &Flag) {
        if !flag.comes() {
            self.ran_out.raise();
        }
    }
}

impl Gate for Crossing {
    fn pass(&self, worker: u8, point: Point) {
        match (worker, point) {
            (1, Point::BeforeCarry(0)) => self.hold(&self.carried),
            (0, Point::AfterCarry(0)) => {
                self.carried.raise();
                self.hold(&self.ended);
            }
            (1, Point::Ended(0)) => self.ended.raise(),
            _ => {}
        }
    }
}

/// Two streams of one write each, of two blocks.
const APART: &[Asks] = &[
    Asks::Frames(b'a', &[Frame::Write(0, 1)]),
    Asks::Frames(b'b', &[Frame::Write(4096, 1)]),
];

#[test]
fn workers_run_side_by_side(rt: HostRuntime) -> Result<(), Fail> {
    let gate = Crossing::new();
    let input = script(rt.alloc(), "1", APART)?;
    let (status, sink) = end_of(&rt, &["run", "--workers=each"], input, &gate)?;
    assert!(rt; !gate.ran_out.is_raised());
    assert_eq!(rt; status.code(), 0);
    let lines = "0 0 1 0 write 4096 1 62*1 ok\n1 0 0 0 write 0 1 61*1 ok\n\
        reply 0 0 1 2 0 1 -\nreply 1 0 1 2 4096 1 -\nmode r0 RW\nchain r0 head\n\
        head r0 aca20ad9fa430fa21e55519ddc3f184c8837dc87d4e8fcb4d804b1e3da731662\n";
    assert_eq!(rt; sink.bytes(), lines.as_bytes());
    Ok(())
}

/// Two of one write each, of one block.
const ON_ONE_BLOCK: &[Asks] = &[
    Asks::Frames(b'a', &[Frame::Write(0, 4096)]),
    Asks::Frames(b'b', &[Frame::Write(0, 4096)]),
];

/// How that run begins, and its last lines then, where the second write is the later one.
const B_LATER: (&str, &str) = (
    "0 0 0 0 write 0 4096 61*4096 ok\n1 ",
    "mode r0 RW\nmode r1 RW\nchain r0 head\nchain r1 head\n\
        head r0 406e2baf20a39e8f01688f136559a5a68ae22ba71c8f5f91fb45a77921ec62b9\n\
        head r1 406e2baf20a39e8f01688f136559a5a68ae22ba71c8f5f91fb45a77921ec62b9\n",
);

/// The same where the first is.
const A_LATER: (&str, &str) = (
    "0 0 1 0 write 0 4096 62*4096 ok\n1 ",
    "mode r0 RW\nmode r1 RW\nchain r0 head\nchain r1 head\n\
        head r0 4a9f57490812dc05ac2f1db013433a0a7fc5341777cc237c4e00a13ffc5d449a\n\
        head r1 4a9f57490812dc05ac2f1db013433a0a7fc5341777cc237c4e00a13ffc5d449a\n",
);

#[test]
fn the_later_of_two_writes_is_read(rt: HostRuntime) -> Result<(), Fail> {
    for _ in 0..10 {
        let input = script(rt.alloc(), "2", ON_ONE_BLOCK)?;
        let (status, sink) = end_of(&rt, &["run"], input, &OpenGate)?;
        assert_eq!(rt; status.code(), 0);
        let (first, last) = if sink.bytes().starts_with(b"0 0 0 ") {
            B_LATER
        } else {
            A_LATER
        };
        assert!(rt; sink.bytes().starts_with(first.as_bytes()));
        assert!(rt; sink.bytes().ends_with(last.as_bytes()));
    }
    Ok(())
}
