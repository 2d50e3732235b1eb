//! The worked rows of purges.

use super::row::{ONE, Row, hold};
use super::script::{Asks, Frame};
use std::test::Fail;

/// Purges. In the last one block 0 is under `s` alone, block 1 under `s` and `t`, block 2 under `t` alone.
const PURGES: [Row; 5] = [
    Row {
        words: ONE,
        replicas: "1",
        streams: &[Asks::Commands(&["snapshot s", "remove s", "purge", "snapshot t", "purge"])],
        note: "",
        printed: "0 0 0 0 snapshot s ok\n\
            1 1 0 1 remove s ok\n\
            2 2 0 2 purge ok\n\
            3 3 0 3 snapshot t ok\n\
            4 mark folded s t\n\
            5 4 0 4 purge ok\n\
            mode r0 RW\nchain r0 head t\n\
            head r0 731859029215873fdac1c9f2f8bd25a334abf0f3a9e1b057cf2cacc2826d86b0\n",
    },
    Row {
        words: ONE,
        replicas: "1",
        streams: &[Asks::Commands(&[
            "snapshot a",
            "snapshot b",
            "revert a",
            "snapshot c",
            "remove a",
            "remove c",
            "purge",
            "revert b",
        ])],
        note: "",
        printed: "0 0 0 0 snapshot a ok\n\
            1 1 0 1 snapshot b ok\n\
            2 2 0 2 revert a ok\n\
            3 3 0 3 snapshot c ok\n\
            4 4 0 4 remove a ok\n\
            5 5 0 5 remove c ok\n\
            6 6 0 6 purge ok\n\
            7 7 0 7 revert b ok\n\
            mode r0 RW\nchain r0 head b a*\n\
            head r0 731859029215873fdac1c9f2f8bd25a334abf0f3a9e1b057cf2cacc2826d86b0\n",
    },
    Row {
        words: ONE,
        replicas: "1",
        streams: &[Asks::Commands(&[
            "snapshot a",
            "snapshot b",
            "revert a",
            "remove b",
            "purge",
            "status",
        ])],
        note: "",
        printed: "0 0 0 0 snapshot a ok\n\
            1 1 0 1 snapshot b ok\n\
            2 2 0 2 revert a ok\n\
            3 3 0 3 remove b ok\n\
            4 mark dropped b\n\
            5 4 0 4 purge ok\n\
            6 6 0 5 status ok layers 2 modes RW\n\
            mode r0 RW\nchain r0 head a\n\
            head r0 731859029215873fdac1c9f2f8bd25a334abf0f3a9e1b057cf2cacc2826d86b0\n",
    },
    // `a` can go only when `b` has gone, and then goes before `c`. Their names stay used.
    Row {
        words: ONE,
        replicas: "1",
        streams: &[Asks::Commands(&[
            "snapshot a",
            "snapshot b",
            "revert a",
            "snapshot c",
            "snapshot d",
            "remove a",
            "remove b",
            "remove c",
            "purge",
            "snapshot a",
            "status",
        ])],
        note: "",
        printed: "0 0 0 0 snapshot a ok\n\
            1 1 0 1 snapshot b ok\n\
            2 2 0 2 revert a ok\n\
            3 3 0 3 snapshot c ok\n\
            4 4 0 4 snapshot d ok\n\
            5 5 0 5 remove a ok\n\
            6 6 0 6 remove b ok\n\
            7 7 0 7 remove c ok\n\
            8 mark dropped b\n\
            9 mark folded a c\n\
            10 mark folded c d\n\
            11 8 0 8 purge ok\n\
            12 12 0 9 snapshot a error name used\n\
            13 13 0 10 status ok layers 2 modes RW\n\
            mode r0 RW\nchain r0 head d\n\
            head r0 731859029215873fdac1c9f2f8bd25a334abf0f3a9e1b057cf2cacc2826d86b0\n",
    },
    Row {
        words: ONE,
        replicas: "1",
        streams: &[
            Asks::Frames(b'a', &[Frame::Write(0, 8192)]),
            Asks::Commands(&["snapshot s"]),
            Asks::Frames(b'b', &[Frame::Write(8191, 2)]),
            Asks::Commands(&["snapshot t"]),
            Asks::Frames(b'c', &[Frame::Write(0, 1)]),
            Asks::Commands(&["remove s", "purge"]),
            Asks::Frames(0, &[Frame::Read(0, 8194)]),
            Asks::Commands(&["revert t"]),
            Asks::Frames(0, &[Frame::Read(0, 8194)]),
        ],
        note: "",
        printed: "0 0 0 0 write 0 8192 61*8192 ok\n\
            1 1 1 0 snapshot s ok\n\
            2 2 2 0 write 8191 2 62*2 ok\n\
            3 3 3 0 snapshot t ok\n\
            4 4 4 0 write 0 1 63*1 ok\n\
            5 5 5 0 remove s ok\n\
            6 mark folded s t\n\
            7 6 5 1 purge ok\n\
            8 8 6 0 read 0 8194 ok 63*1,61*8190,62*2,00*1\n\
            9 9 7 0 revert t ok\n\
            10 10 8 0 read 0 8194 ok 61*8191,62*2,00*1\n\
            reply 0 0 1 2 0 8192 -\n\
            reply 2 0 1 2 8191 2 -\n\
            reply 4 0 1 2 0 1 -\n\
            reply 6 0 1 2 0 8194 63*1,61*8190,62*2,00*1\n\
            reply 8 0 1 2 0 8194 61*8191,62*2,00*1\n\
            mode r0 RW\nchain r0 head t\n\
            head r0 c9e0c3e9d537a460567a6aeacf4b4ffbc6372532137ebfc2694cff7ab2ffbc92\n",
    },
];

#[test]
fn a_purge_takes_out_what_can_go(rt: HostRuntime) -> Result<(), Fail> {
    hold(&rt, &PURGES)
}
