ghost use Rattle.std.specs.Prelude.{◌≡◌, ◌<◌, ◌^◌, length, IfOk};
ghost use Rattle.packed_bytes.specs.Place.{IsPlace, list_at};

use crate::made::{drawn, with_runs, without_runs};
use image_runs::print_runs;
use packed_bytes::{Data, PackedList, Place, SliceRuns, print_packed, put_packed};
use segment_list::Segments;
use std::alloc::{AllocError, Global};
use std::process::Abort;
use std::test::Fail;

/// Puts a list, and makes room for it.
fn put(store: &mut Data, list: &[u8]) -> Result<Place, AllocError>
    requires { length list.now < 2 ^ 32 }
    ensures { IfOk result (λ place. IsPlace store.new.items place
        × (list_at store.new.items place ≡ list.now)) }
{
    store.reserve(list.len())?;
    Ok(put_packed(store, list))
}

/// Puts a list, and looks at what it takes, its length, its first piece and its text.
fn puts(
    rt: &impl Abort,
    alloc: Global,
    store: &mut Data,
    list: &[u8],
    taken: u32,
) -> Result<(), AllocError> {
    assert!(rt; list.len() < 0x1_0000_0000);
    let place = put(store, list)?;
    assert_eq!(rt; place.taken, taken);
    let seen = PackedList::at(store, place);
    assert_eq!(rt; seen.len(), list.len());
    assert_eq!(rt; seen.is_packed(), (taken as usize) < list.len());
    if let Some(plain) = seen.plain() {
        assert_eq!(rt; plain.len(), list.len());
        assert!(rt; plain.len() == 0 || list.starts_with(plain.piece(0)));
    }
    let mut text = Vec::new(alloc);
    print_packed(&seen.again(), &mut text)?;
    let mut wanted = Vec::new(alloc);
    print_runs(list, &mut wanted)?;
    assert!(rt; text.as_slice() == wanted.as_slice());
    Ok(())
}

/// Puts a list, and looks at its runs.
fn has_runs(
    rt: &impl Abort,
    store: &mut Data,
    list: &[u8],
    runs: &[(u8, usize)],
) -> Result<(), AllocError> {
    assert!(rt; list.len() < 0x1_0000_0000);
    let place = put(store, list)?;
    let mut seen = PackedList::at(store, place).runs();
    let mut plain = SliceRuns::of(list);
    for run in runs {
        assert!(rt; seen.next() == Some(*run));
        assert!(rt; plain.next() == Some(*run));
    }
    assert!(rt; seen.next().is_none());
    assert!(rt; plain.next().is_none());
    Ok(())
}

#[test]
fn lists_take_what_the_rows_say(rt: HostRuntime) -> Result<(), Fail> {
    let alloc = rt.alloc();
    let mut store = Segments::new(alloc);
    puts(&rt, alloc, &mut store, &[0; 4096], 5)?;
    puts(&rt, alloc, &mut store, b"abc", 3)?;
    puts(&rt, alloc, &mut store, b"", 0)?;
    puts(&rt, alloc, &mut store, b"aaaaa", 5)?;
    puts(&rt, alloc, &mut store, b"aaaaaa", 5)?;
    puts(&rt, alloc, &mut store, b"aaaaaabbbb", 10)?;
    puts(&rt, alloc, &mut store, b"aaaaaabbbbb", 10)?;
    puts(&rt, alloc, &mut store, &[7; 256], 5)?;
    puts(&rt, alloc, &mut store, &[7; 65_536], 5)?;
    Ok(())
}

#[test]
fn runs_are_as_long_as_can_be(rt: HostRuntime) -> Result<(), Fail> {
    let mut store = Segments::new(rt.alloc());
    has_runs(&rt, &mut store, b"", &[])?;
    has_runs(&rt, &mut store, b"abba", &[(97, 1), (98, 2), (97, 1)])?;
    has_runs(&rt, &mut store, b"aaaaaaaabbbbbbbb", &[(97, 8), (98, 8)])?;
    has_runs(&rt, &mut store, &[0; 4096], &[(0, 4096)])?;
    Ok(())
}

#[test]
fn lists_lie_over_the_end_of_a_chunk(rt: HostRuntime) -> Result<(), Fail> {
    let alloc = rt.alloc();
    let mut store = Segments::new(alloc);
    puts(
        &rt,
        alloc,
        &mut store,
        &without_runs(alloc, 1_048_574)?,
        1_048_574,
    )?;
    // A run over the end, and then one behind it.
    has_runs(&rt, &mut store, b"abbbc", &[(97, 1), (98, 3), (99, 1)])?;
    puts(
        &rt,
        alloc,
        &mut store,
        &without_runs(alloc, 1_048_570)?,
        1_048_570,
    )?;
    puts(&rt, alloc, &mut store, b"abbbbc", 6)?;
    // The codes of a run over the end of the third chunk.
    puts(
        &rt,
        alloc,
        &mut store,
        &without_runs(alloc, 1_048_570)?,
        1_048_570,
    )?;
    has_runs(&rt, &mut store, &[1; 300_000], &[(1, 300_000)])?;
    Ok(())
}

#[test]
fn long_lists_without_runs_are_kept_as_they_are(rt: HostRuntime) -> Result<(), Fail> {
    let alloc = rt.alloc();
    let mut store = Segments::new(alloc);
    let list = without_runs(alloc, 1_048_576)?;
    puts(&rt, alloc, &mut store, &list, 1_048_576)?;
    puts(&rt, alloc, &mut store, b"x", 1)?;
    puts(&rt, alloc, &mut store, &list, 1_048_576)?;
    puts(
        &rt,
        alloc,
        &mut store,
        &without_runs(alloc, 3_000_000)?,
        3_000_000,
    )?;
    Ok(())
}

/// How many bytes a list takes, by looking at each of its bytes.
fn taken_slowly(list: &[u8]) -> u32 {
    let mut codes: u32 = 0;
    let mut last = None;
    for byte in list {
        if last != Some(*byte) {
            codes = codes.saturating_add(5);
        }
        last = Some(*byte);
    }
    codes.min(u32::try_from(list.len()).unwrap_or(u32::MAX))
}

#[test]
fn drawn_lists_are_read_as_they_were_put(rt: HostRuntime) -> Result<(), Fail> {
    let alloc = rt.alloc();
    let mut store = Segments::new(alloc);
    let mut seed = 1;
    for i in 0..400 {
        seed = drawn(seed);
        let list = with_runs(alloc, seed, seed % 300, 1 + i % 40)?;
        puts(&rt, alloc, &mut store, &list, taken_slowly(&list))?;
    }
    Ok(())
}
