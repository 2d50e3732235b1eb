use crate::told::same;
use image_maps::{BlockSpan, MapError, MapReader, read_map, write_map};
use std::alloc::Global;
use std::test::Fail;

/// Blocks 0, 1, 2 and 5.
const SPANS: [BlockSpan; 2] = [
    BlockSpan { first: 0, count: 3 },
    BlockSpan { first: 5, count: 1 },
];

#[test]
fn a_map_is_written(rt: HostRuntime) -> Result<(), Fail> {
    let text = write_map(rt.alloc(), &SPANS)?;
    assert_eq!(rt; text.as_slice(), b"0 3\n5 1\n".as_slice());
    Ok(())
}

#[test]
fn a_map_is_read(rt: HostRuntime) -> Result<(), Fail> {
    let spans = read_map(rt.alloc(), b"0 3\n5 1\n", 512)?;
    assert_eq!(rt; spans.as_slice(), SPANS.as_slice());
    Ok(())
}

/// Texts, and of a map of 512 blocks how many runs it has, or the place of its first bad line.
const ROWS: [(&[u8], Result<usize, MapError>); 17] = [
    (b"", Ok(0)),
    (b"0 3\n5 1\n", Ok(2)),
    (b"511 1\n", Ok(1)),
    (b"0 512\n", Ok(1)),
    (b"0 3\n3 1\n", Err(MapError::BadLine(4))),
    (b"00 1\n", Err(MapError::BadLine(0))),
    (b"511 2\n", Err(MapError::BadLine(0))),
    (b"0 3\n5 1", Err(MapError::BadLine(4))),
    (b"0 0\n", Err(MapError::BadLine(0))),
    (b"+1 1\n", Err(MapError::BadLine(0))),
    (b"0 513\n", Err(MapError::BadLine(0))),
    (b"512 1\n", Err(MapError::BadLine(0))),
    (b"0 01\n", Err(MapError::BadLine(0))),
    (b"0  1\n", Err(MapError::BadLine(0))),
    (b"0 1\r\n", Err(MapError::BadLine(0))),
    (b"0 1\n\n", Err(MapError::BadLine(4))),
    (b"5 1\n0 3\n", Err(MapError::BadLine(4))),
];

#[test]
fn a_text_is_a_map_or_bad_at_a_place(rt: HostRuntime) {
    for (row, (text, wanted)) in ROWS.iter().enumerate() {
        let told = read_map(rt.alloc(), text, 512).map(|spans| spans.len());
        same(&rt, row, &told, wanted);
    }
}

/// How many runs a text has that comes byte by byte.
fn read_bytewise(alloc: Global, text: &[u8]) -> Result<usize, MapError> {
    let mut reader = MapReader::new(alloc, 512);
    for byte in text {
        reader.feed(&[*byte])?;
    }
    Ok(reader.end()?.len())
}

#[test]
fn a_text_that_comes_byte_by_byte_is_the_same(rt: HostRuntime) {
    for (row, (text, wanted)) in ROWS.iter().enumerate() {
        same(&rt, row, &read_bytewise(rt.alloc(), text), wanted);
    }
}

/// Bytes with which no line of a map of 512 blocks begins, though one begins with all but the last.
const ENDLESS: [&[u8]; 5] = [b"512", b"01", b"0 513", b"1x", b"9 0"];

#[test]
fn a_line_is_refused_before_its_end(rt: HostRuntime) -> Result<(), Fail> {
    for (row, text) in ENDLESS.iter().enumerate() {
        let mut reader = MapReader::new(rt.alloc(), 512);
        let (last, begun) = text.split_last().ok_or("no byte")?;
        same(&rt, row, &reader.feed(begun), &Ok(()));
        same(&rt, row, &reader.feed(&[*last]), &Err(MapError::BadLine(0)));
        same(&rt, row, &reader.feed(b"0 1\n"), &Err(MapError::BadLine(0)));
    }
    Ok(())
}

/// A piece of a text of digits alone.
const DIGITS: [u8; 4096] = [b'1'; 4096];

#[test]
fn digits_without_an_end_are_refused_at_once(rt: HostRuntime) {
    let mut reader = MapReader::new(rt.alloc(), 512);
    assert_eq!(rt; reader.feed(&DIGITS), Err(MapError::BadLine(0)));
    assert_eq!(rt;
        reader.end().map(|spans| spans.len()),
        Err(MapError::BadLine(0))
    );
}
