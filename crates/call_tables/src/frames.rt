use crate::told::same;
use frame_stream::{Bytes, FrameReader, Next};
use std::alloc::{AllocError, Global};
use std::test::Fail;

/// A write with the data `abcd`, and a read behind it.
const FRAMES: &[u8] = b"\x01\x1b\x01\0\0\0\x01\0\0\0\0\0\0\0\0\0\0\0\x04\0\0\0\x04\0\0\0abcd\
    \x01\x1b\x02\0\0\0\0\0\0\0\0\0\0\0\0\0\0\0\0\x10\0\0\0\0\0\0";

/// A frame by its number and the length of its data, that more bytes are needed, or where no frame is.
fn word_of(alloc: Global, next: &Next) -> Result<String, AllocError> {
    match next {
        Next::Frame(frame) => format!(in alloc; "{}:{} ", frame.head.seq, frame.body.len()),
        Next::Short => String::from_str(alloc, "short "),
        Next::Bad(place) => format!(in alloc; "bad {place} "),
    }
}

/// What a reader gives in three turns behind a piece.
fn read_on(alloc: Global, reader: &mut FrameReader, piece: &[u8]) -> Result<String, AllocError> {
    reader.feed(Bytes::copy_from_slice(alloc, piece)?)?;
    let mut told = String::new(alloc);
    for _ in 0..3 {
        told.push_str(&word_of(alloc, &reader.next()?)?)?;
    }
    Ok(told)
}

/// What is given of the frames, cut at a place, by a reader of so much data.
fn read_cut(alloc: Global, cut: usize, most: u32) -> Result<(String, String), AllocError> {
    let (front, rest) = FRAMES.split_at(cut.min(FRAMES.len()));
    let mut reader = FrameReader::new(alloc, most);
    let first = read_on(alloc, &mut reader, front)?;
    Ok((first, read_on(alloc, &mut reader, rest)?))
}

/// Where the frames are cut, the most data, and what is given before the cut and behind it.
const CUTS: [(usize, u32, &str, &str); 8] = [
    (0, 4, "short short short ", "1:4 2:0 short "),
    (1, 4, "short short short ", "1:4 2:0 short "),
    (28, 4, "short short short ", "1:4 2:0 short "),
    (30, 4, "1:4 short short ", "2:0 short short "),
    (55, 4, "1:4 short short ", "2:0 short short "),
    (56, 4, "1:4 2:0 short ", "short short short "),
    (25, 3, "short short short ", "bad 0 bad 0 bad 0 "),
    (26, 3, "bad 0 bad 0 bad 0 ", "bad 0 bad 0 bad 0 "),
];

#[test]
fn frames_are_read_wherever_a_piece_ends(rt: HostRuntime) -> Result<(), Fail> {
    for (row, (cut, most, front, rest)) in CUTS.iter().enumerate() {
        let told = read_cut(rt.alloc(), *cut, *most)?;
        let told = (told.0.as_str(), told.1.as_str());
        same(&rt, row, &told, &(*front, *rest));
    }
    Ok(())
}

#[test]
fn no_frame_is_found_behind_a_frame(rt: HostRuntime) -> Result<(), Fail> {
    let mut reader = FrameReader::new(rt.alloc(), 4);
    read_on(rt.alloc(), &mut reader, &FRAMES[..30])?;
    let told = read_on(rt.alloc(), &mut reader, b"\x01\x1c")?;
    assert_eq!(rt; told.as_str(), "bad 30 bad 30 bad 30 ");
    assert_eq!(rt; (reader.place(), reader.is_empty()), (30, false));
    Ok(())
}

#[test]
fn the_data_of_a_frame_is_shared_with_its_piece(rt: HostRuntime) -> Result<(), Fail> {
    let piece = Bytes::copy_from_slice(rt.alloc(), FRAMES)?;
    let mut reader = FrameReader::new(rt.alloc(), 4);
    reader.feed(piece)?;
    let Next::Frame(frame) = reader.next()? else {
        panic!(rt; "no frame");
    };
    assert_eq!(rt; frame.body.as_slice(), b"abcd".as_slice());
    // The other owner of the bytes is the reader, with what is left of the piece.
    assert!(rt; !frame.body.is_unique());
    Ok(())
}
