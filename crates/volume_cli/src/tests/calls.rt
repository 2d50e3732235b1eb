//! The worked rows of frames and of snapshots on one replica whose lines do not fail.

use super::row::{ONE, Row, hold};
use super::script::{Asks, Frame};
use std::test::Fail;

const PING: &[Asks] = &[Asks::Frames(0, &[Frame::Other(6)])];

/// Words and inputs that are refused, and runs on one replica whose lines do not fail.
const PLAIN: [Row; 9] = [
    Row {
        words: &["run", "--workers", "two"],
        replicas: "1",
        streams: PING,
        note: "usage",
        printed: "",
    },
    Row {
        words: ONE,
        replicas: "9",
        streams: PING,
        note: "script 0 member replicas",
        printed: "",
    },
    Row {
        words: ONE,
        replicas: "1",
        streams: &[Asks::Frames(0, &[Frame::Write(0, 1_048_577)])],
        note: "script 74 frame",
        printed: "",
    },
    Row {
        words: ONE,
        replicas: "1",
        streams: &[Asks::Frames(0, &[Frame::Read(0, 4096)])],
        note: "",
        printed: "0 0 0 0 read 0 4096 ok 00*4096\n\
            reply 0 0 1 2 0 4096 00*4096\n\
            mode r0 RW\nchain r0 head\n\
            head r0 731859029215873fdac1c9f2f8bd25a334abf0f3a9e1b057cf2cacc2826d86b0\n",
    },
    Row {
        words: ONE,
        replicas: "1",
        streams: &[Asks::Frames(b'a', &[Frame::Write(4095, 1), Frame::Read(4094, 4)])],
        note: "",
        printed: "0 0 0 0 write 4095 1 61*1 ok\n\
            1 1 0 1 read 4094 4 ok 00*1,61*1,00*2\n\
            reply 0 0 1 2 4095 1 -\n\
            reply 0 1 2 2 4094 4 00*1,61*1,00*2\n\
            mode r0 RW\nchain r0 head\n\
            head r0 85f0f89e45067bf835186d74db75cef739d5a1ccdff92f301eb2c1cfbc74ca96\n",
    },
    Row {
        words: ONE,
        replicas: "1",
        streams: &[Asks::Frames(
            0,
            &[
                Frame::Read(2_093_056, 4096),
                Frame::Read(2_093_056, 4097),
                Frame::Read(2_097_152, 0),
            ],
        )],
        note: "",
        printed: "0 0 0 0 read 2093056 4096 ok 00*4096\n\
            1 1 0 1 read 2093056 4097 error out of range\n\
            2 2 0 2 read 2097152 0 ok -\n\
            reply 0 0 1 2 2093056 4096 00*4096\n\
            reply 0 1 2 3 2093056 12 6f*1,75*1,74*1,20*1,6f*1,66*1,20*1,72*1,61*1,6e*1,67*1,65*1\n\
            reply 0 2 3 2 2097152 0 -\n\
            mode r0 RW\nchain r0 head\n\
            head r0 731859029215873fdac1c9f2f8bd25a334abf0f3a9e1b057cf2cacc2826d86b0\n",
    },
    Row {
        words: ONE,
        replicas: "1",
        streams: &[Asks::Frames(
            0,
            &[
                Frame::Read(-1, 1),
                Frame::Read(0, 1_048_577),
                Frame::Other(7),
            ],
        )],
        note: "",
        printed: "0 0 0 0 read -1 1 error out of range\n\
            1 1 0 1 read 0 1048577 error too long\n\
            2 2 0 2 other 7 error unsupported\n\
            reply 0 0 1 3 -1 12 6f*1,75*1,74*1,20*1,6f*1,66*1,20*1,72*1,61*1,6e*1,67*1,65*1\n\
            reply 0 1 2 3 0 8 74*1,6f*2,20*1,6c*1,6f*1,6e*1,67*1\n\
            reply 0 2 3 3 0 11 75*1,6e*1,73*1,75*1,70*2,6f*1,72*1,74*1,65*1,64*1\n\
            mode r0 RW\nchain r0 head\n\
            head r0 731859029215873fdac1c9f2f8bd25a334abf0f3a9e1b057cf2cacc2826d86b0\n",
    },
    Row {
        words: ONE,
        replicas: "1",
        streams: &[Asks::Frames(0, &[Frame::Write(0, 1_048_576)])],
        note: "",
        printed: "0 0 0 0 write 0 1048576 00*1048576 ok\n\
            reply 0 0 1 2 0 1048576 -\n\
            mode r0 RW\nchain r0 head\n\
            head r0 731859029215873fdac1c9f2f8bd25a334abf0f3a9e1b057cf2cacc2826d86b0\n",
    },
    Row {
        words: ONE,
        replicas: "1",
        streams: &[Asks::Frames(0, &[Frame::Other(6), Frame::Other(5)])],
        note: "",
        printed: "0 0 0 0 ping ok\n\
            reply 0 0 1 2 0 0 -\n\
            mode r0 RW\nchain r0 head\n\
            head r0 731859029215873fdac1c9f2f8bd25a334abf0f3a9e1b057cf2cacc2826d86b0\n",
    },
];

#[test]
fn calls_are_answered_and_refused(rt: HostRuntime) -> Result<(), Fail> {
    hold(&rt, &PLAIN)
}

/// Snapshots and reverts.
const SNAPSHOTS: [Row; 2] = [
    Row {
        words: ONE,
        replicas: "1",
        streams: &[
            Asks::Frames(b'a', &[Frame::Write(0, 1)]),
            Asks::Commands(&["snapshot s"]),
            Asks::Frames(b'b', &[Frame::Write(0, 1)]),
            Asks::Commands(&["revert s"]),
            Asks::Frames(0, &[Frame::Read(0, 1)]),
        ],
        note: "",
        printed: "0 0 0 0 write 0 1 61*1 ok\n\
            1 1 1 0 snapshot s ok\n\
            2 2 2 0 write 0 1 62*1 ok\n\
            3 3 3 0 revert s ok\n\
            4 4 4 0 read 0 1 ok 61*1\n\
            reply 0 0 1 2 0 1 -\n\
            reply 2 0 1 2 0 1 -\n\
            reply 4 0 1 2 0 1 61*1\n\
            mode r0 RW\nchain r0 head s\n\
            head r0 69bc26647981c5985e96d27105bad947555b0e119827f3a5a01abd09b025e08c\n",
    },
    Row {
        words: ONE,
        replicas: "1",
        streams: &[Asks::Commands(&[
            "snapshot s",
            "snapshot s",
            "remove s",
            "snapshot s",
            "revert s",
        ])],
        note: "",
        printed: "0 0 0 0 snapshot s ok\n\
            1 1 0 1 snapshot s error name used\n\
            2 2 0 2 remove s ok\n\
            3 3 0 3 snapshot s error name used\n\
            4 4 0 4 revert s error no such snapshot\n\
            mode r0 RW\nchain r0 head s*\n\
            head r0 731859029215873fdac1c9f2f8bd25a334abf0f3a9e1b057cf2cacc2826d86b0\n",
    },
];

#[test]
fn a_snapshot_is_kept_under_its_name(rt: HostRuntime) -> Result<(), Fail> {
    hold(&rt, &SNAPSHOTS)
}
