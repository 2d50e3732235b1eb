//! Where an input ends, and why.

use crate::frame::{CLOSE, Content, Frame, PING, RESPONSE, spell};
use crate::served::{End, serve_pieces};
use replica_serve::ServeError;
use std::test::Fail;

/// Frames, the bytes behind them, how many pings of seq 1 were answered before the end, and how it ends.
struct Row {
    frames: &'static [Frame],
    behind: &'static [u8],
    pings: usize,
    end: End,
}

const PINGED: Frame = Frame(1, PING, 0, 0, Content::None);

const CLOSED: Frame = Frame(2, CLOSE, 0, 0, Content::None);

/// A header whose data may not be longer, and whose data may; no data stands behind either.
const LONGEST: &[u8; 26] = b"\x01\x1b\0\0\0\0\x06\0\0\0\0\0\0\0\0\0\0\0\0\0\0\0\0\0\x10\0";

const TOO_LONG: &[u8; 26] = b"\x01\x1b\0\0\0\0\x06\0\0\0\0\0\0\0\0\0\0\0\0\0\0\0\x01\0\x10\0";

const INPUTS: [Row; 13] = [
    Row {
        frames: &[],
        behind: b"",
        pings: 0,
        end: Ok(()),
    },
    Row {
        frames: &[PINGED, PINGED],
        behind: b"",
        pings: 2,
        end: Ok(()),
    },
    Row {
        frames: &[PINGED],
        behind: b"\0\0",
        pings: 1,
        end: Err(ServeError::Frame(26)),
    },
    Row {
        frames: &[PINGED],
        behind: b"\x01",
        pings: 1,
        end: Err(ServeError::Frame(26)),
    },
    Row {
        frames: &[],
        behind: b"\x1b\x01",
        pings: 0,
        end: Err(ServeError::Frame(0)),
    },
    // Nothing is asked behind a Close, whatever stands there. A Close may have data.
    Row {
        frames: &[PINGED, CLOSED, PINGED],
        behind: b"",
        pings: 1,
        end: Ok(()),
    },
    Row {
        frames: &[CLOSED],
        behind: b"\0\0",
        pings: 0,
        end: Ok(()),
    },
    Row {
        frames: &[Frame(2, CLOSE, -1, 9, Content::Text(b"bye"))],
        behind: b"\x01",
        pings: 0,
        end: Ok(()),
    },
    Row {
        frames: &[PINGED, Frame(1, PING, 0, 0, Content::Fill(b'p', 1_048_576))],
        behind: b"",
        pings: 2,
        end: Ok(()),
    },
    // One byte of data more is bad at once, and not only at the end.
    Row {
        frames: &[PINGED],
        behind: TOO_LONG,
        pings: 1,
        end: Err(ServeError::Frame(26)),
    },
    Row {
        frames: &[
            PINGED,
            Frame(1, PING, 0, 0, Content::Fill(b'p', 1_048_577)),
            PINGED,
        ],
        behind: b"",
        pings: 1,
        end: Err(ServeError::Frame(26)),
    },
    Row {
        frames: &[PINGED, PINGED],
        behind: LONGEST,
        pings: 2,
        end: Err(ServeError::Frame(52)),
    },
    // A Close that is not whole is none.
    Row {
        frames: &[PINGED],
        behind: b"\x01\x1b\0\0\0\0\x05\0\0\0\0\0\0\0\0\0\0\0\0\0\0\0\x01\0\0\0",
        pings: 1,
        end: Err(ServeError::Frame(26)),
    },
];

#[test]
fn an_input_ends_for_one_cause(rt: HostRuntime) -> Result<(), Fail> {
    let reply = spell(rt.alloc(), &[Frame(1, RESPONSE, 0, 0, Content::None)], b"")?;
    for (row, served) in INPUTS.iter().enumerate() {
        let input = spell(rt.alloc(), served.frames, served.behind)?;
        let (end, sink) = serve_pieces(&rt, rt.alloc(), &input, 65_536)?;
        assert_eq!(rt; end, served.end, "at row {row}");
        let mut wanted = Vec::new(rt.alloc());
        for _ in 0..served.pings {
            wanted.extend_from_slice(&reply)?;
        }
        assert_eq!(rt; sink.bytes(), wanted.as_slice(), "at row {row}");
    }
    Ok(())
}
