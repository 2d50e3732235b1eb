use crate::told::same;
use std::test::Fail;
use vol_units::{LayerName, PlainName, SnapName, TimeText};

/// Whether the bytes are read as a snapshot's name, a volume's and a layer's.
fn read_as(name: &[u8]) -> (bool, bool, bool) {
    (
        SnapName::read(name).is_ok(),
        PlainName::read(name).is_ok(),
        LayerName::read(name).is_ok(),
    )
}

const LONG: [u8; 65] = [b'a'; 65];

const NAMES: [(&[u8], (bool, bool, bool)); 9] = [
    (b"", (false, false, false)),
    (b"2026-10-16_daily.v1", (true, true, true)),
    (b"-a", (true, false, true)),
    (b"a/b", (false, false, false)),
    (b"sys-", (false, true, false)),
    (b"sys-0", (false, true, true)),
    (b"sys-01", (false, true, false)),
    (b"sys-10000000000", (false, true, false)),
    (&LONG, (false, false, false)),
];

#[test]
fn names_are_read_by_their_grammar(rt: HostRuntime) {
    for (row, (name, wanted)) in NAMES.iter().enumerate() {
        same(&rt, row, &read_as(name), wanted);
    }
    same(&rt, 9, &read_as(&LONG[..64]), &(true, true, true));
}

#[test]
fn a_name_is_shown_as_a_text(rt: HostRuntime) -> Result<(), Fail> {
    let shown = format!(in rt.alloc(); "{:?}", LayerName::sys(u64::MAX))?;
    assert_eq!(rt; shown.as_str(), "\"sys-18446744073709551615\"");
    Ok(())
}

/// Texts, and whether each is a time.
const TIMES: [(&str, bool); 7] = [
    ("", true),
    ("2026-01-01T00:00:00Z", true),
    ("~ the most that a text of time may hold ", true),
    ("one byte more than the forty that it may ", false),
    ("a tab\t", false),
    ("\u{7f}", false),
    ("né", false),
];

#[test]
fn a_time_is_a_short_text(rt: HostRuntime) -> Result<(), Fail> {
    for (row, (text, good)) in TIMES.iter().enumerate() {
        let time = TimeText::read(rt.alloc(), text)?;
        same(&rt, row, &time.is_some(), good);
    }
    Ok(())
}
