//! The worked rows of replicas that fall, and that are rebuilt.

use super::row::{ONE, Row, hold};
use super::script::{Asks, Frame};
use std::test::Fail;

/// Replicas whose lines fail, or that fail by command.
const FALLS: [Row; 4] = [
    Row {
        words: ONE,
        replicas: "2,\"lines\":[{\"worker\":0,\"replica\":1,\"fail\":[2]}]",
        streams: &[Asks::Frames(b'a', &[Frame::Write(0, 1), Frame::Read(0, 1)])],
        note: "",
        printed: "0 mark fault 0 r1 1\n\
            1 0 0 0 write 0 1 61*1 ok\n\
            2 2 0 1 read 0 1 ok 61*1\n\
            reply 0 0 1 2 0 1 -\n\
            reply 0 1 2 2 0 1 61*1\n\
            mode r0 RW\nmode r1 ERR\nchain r0 head\n\
            head r0 69bc26647981c5985e96d27105bad947555b0e119827f3a5a01abd09b025e08c\n",
    },
    Row {
        words: ONE,
        replicas: "2,\"lines\":[{\"worker\":0,\"replica\":0,\"fail\":[3]}]",
        streams: &[Asks::Frames(b'a', &[Frame::Write(0, 1), Frame::Read(0, 1)])],
        note: "",
        printed: "0 0 0 0 write 0 1 61*1 ok\n\
            1 mark fault 0 r0 1\n\
            2 1 0 1 read 0 1 ok 61*1\n\
            reply 0 0 1 2 0 1 -\n\
            reply 0 1 2 2 0 1 61*1\n\
            mode r0 ERR\nmode r1 RW\nchain r1 head\n\
            head r1 69bc26647981c5985e96d27105bad947555b0e119827f3a5a01abd09b025e08c\n",
    },
    Row {
        words: ONE,
        replicas: "1,\"lines\":[{\"worker\":0,\"replica\":0,\"fail\":[1]}]",
        streams: &[Asks::Frames(b'a', &[Frame::Write(0, 1), Frame::Read(0, 1)])],
        note: "",
        printed: "0 mark fault 0 r0 1\n\
            1 0 0 0 write 0 1 61*1 error no replica\n\
            2 2 0 1 read 0 1 error no replica\n\
            reply 0 0 1 3 0 10 6e*1,6f*1,20*1,72*1,65*1,70*1,6c*1,69*1,63*1,61*1\n\
            reply 0 1 2 3 0 10 6e*1,6f*1,20*1,72*1,65*1,70*1,6c*1,69*1,63*1,61*1\n\
            mode r0 ERR\n",
    },
    Row {
        words: ONE,
        replicas: "1",
        streams: &[Asks::Commands(&["fail r0", "fail r0", "status"])],
        note: "",
        printed: "0 mark failed r0\n\
            1 0 0 0 fail r0 ok\n\
            2 2 0 1 fail r0 ok\n\
            3 3 0 2 status ok layers 1 modes ERR\n\
            mode r0 ERR\n",
    },
];

#[test]
fn a_replica_that_falls_is_left_out(rt: HostRuntime) -> Result<(), Fail> {
    hold(&rt, &FALLS)
}

/// Rebuilds: one that ends well and is read from, two that a line ends, and two that are refused.
const REBUILDS: [Row; 5] = [
    Row {
        words: ONE,
        replicas: "2",
        streams: &[
            Asks::Frames(b'a', &[Frame::Write(0, 1)]),
            Asks::Commands(&["fail r1", "add r1", "fail r0"]),
            Asks::Frames(0, &[Frame::Read(0, 1)]),
        ],
        note: "",
        printed: "0 0 0 0 write 0 1 61*1 ok\n\
            1 mark failed r1\n\
            2 1 1 0 fail r1 ok\n\
            3 mark added r1 r0 sys-0\n\
            4 mark promoted r1\n\
            5 3 1 1 add r1 ok\n\
            6 mark failed r0\n\
            7 6 1 2 fail r0 ok\n\
            8 8 2 0 read 0 1 ok 61*1\n\
            reply 0 0 1 2 0 1 -\n\
            reply 2 0 1 2 0 1 61*1\n\
            mode r0 ERR\nmode r1 RW\nchain r1 head sys-0\n\
            head r1 69bc26647981c5985e96d27105bad947555b0e119827f3a5a01abd09b025e08c\n",
    },
    Row {
        words: ONE,
        replicas: "2,\"lines\":[{\"worker\":1,\"replica\":0,\"fail\":[3]}]",
        streams: &[
            Asks::Frames(b'a', &[Frame::Write(0, 1)]),
            Asks::Commands(&["fail r1", "add r1"]),
        ],
        note: "",
        printed: "0 0 0 0 write 0 1 61*1 ok\n\
            1 mark failed r1\n\
            2 1 1 0 fail r1 ok\n\
            3 mark added r1 r0 sys-0\n\
            4 mark fault 1 r0 1\n\
            5 mark aborted r1\n\
            6 3 1 1 add r1 error aborted 5\n\
            reply 0 0 1 2 0 1 -\n\
            mode r0 ERR\nmode r1 ERR\n",
    },
    Row {
        words: ONE,
        replicas: "2,\"lines\":[{\"worker\":1,\"replica\":1,\"fail\":[1]}]",
        streams: &[
            Asks::Frames(b'a', &[Frame::Write(0, 1)]),
            Asks::Commands(&["fail r1", "add r1"]),
        ],
        note: "",
        printed: "0 0 0 0 write 0 1 61*1 ok\n\
            1 mark failed r1\n\
            2 1 1 0 fail r1 ok\n\
            3 mark added r1 r0 sys-0\n\
            4 mark fault 1 r1 1\n\
            5 mark aborted r1\n\
            6 3 1 1 add r1 error aborted 5\n\
            reply 0 0 1 2 0 1 -\n\
            mode r0 RW\nmode r1 ERR\nchain r0 head sys-0\n\
            head r0 69bc26647981c5985e96d27105bad947555b0e119827f3a5a01abd09b025e08c\n",
    },
    Row {
        words: ONE,
        replicas: "1",
        streams: &[Asks::Commands(&["fail r0", "add r0"])],
        note: "",
        printed: "0 mark failed r0\n\
            1 0 0 0 fail r0 ok\n\
            2 2 0 1 add r0 error no replica\n\
            mode r0 ERR\n",
    },
    Row {
        words: ONE,
        replicas: "1",
        streams: &[Asks::Commands(&["add r0"])],
        note: "",
        printed: "0 0 0 0 add r0 error in use\n\
            mode r0 RW\nchain r0 head\n\
            head r0 731859029215873fdac1c9f2f8bd25a334abf0f3a9e1b057cf2cacc2826d86b0\n",
    },
];

#[test]
fn a_replica_comes_back_where_no_line_fails(rt: HostRuntime) -> Result<(), Fail> {
    hold(&rt, &REBUILDS)
}
