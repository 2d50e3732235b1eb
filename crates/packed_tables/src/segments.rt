use segment_list::Segments;
use std::alloc::AllocError;
use std::process::Abort;
use std::test::Fail;

/// Puts an element into a list, and makes room for it.
fn put(list: &mut Segments<u32, 4>, item: u32) -> Result<(), AllocError> {
    list.reserve(1)?;
    list.push(item);
    Ok(())
}

fn is_at(rt: &impl Abort, list: &Segments<u32, 4>, place: usize, item: u32) {
    assert!(rt; place < list.len());
    assert_eq!(rt; *list.get(place), item);
}

#[test]
fn elements_are_where_they_were_put(rt: HostRuntime) -> Result<(), Fail> {
    let mut list = Segments::new(rt.alloc());
    for i in 0..9 {
        put(&mut list, 10 * i)?;
    }
    assert_eq!(rt; list.len(), 9);
    assert_eq!(rt; list.room(), 3);
    is_at(&rt, &list, 0, 0);
    is_at(&rt, &list, 3, 30);
    is_at(&rt, &list, 4, 40);
    is_at(&rt, &list, 8, 80);
    Ok(())
}

#[test]
fn pieces_go_as_far_as_their_segment(rt: HostRuntime) -> Result<(), Fail> {
    let mut list: Segments<u32, 4> = Segments::new(rt.alloc());
    list.reserve(6)?;
    list.append(&[1, 2, 3, 4, 5, 6]);
    assert_eq!(rt; list.len(), 6);
    assert!(rt; list.piece(0) == [1, 2, 3, 4].as_slice());
    assert!(rt; list.piece(2) == [3, 4].as_slice());
    assert!(rt; list.piece(4) == [5, 6].as_slice());
    assert_eq!(rt; list.room(), 2);
    Ok(())
}
