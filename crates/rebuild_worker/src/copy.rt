ghost use Rattle.std.specs.Prelude.{◌≡◌, ◌≢◌, ◌≤◌, [], None, Some, Ok, true, length, IfOk, OnErr};
ghost use Rattle.rebuild_worker.specs.declared.steps.Carried.TheVariants as carried;
ghost use Rattle.frame_wire.specs.Spelling.{IsFrame};
ghost use Rattle.rebuild_worker.specs.Copying.{AreQuiet, KeepsCopying, KeepsHand};
ghost use Rattle.rebuild_worker.specs.Frames.{source_request};
ghost use Rattle.rebuild_worker.specs.Rooms.{HasPlace, HasRoom, text_in};
ghost use Rattle.rebuild_worker.specs.Told.{CopiesPage, CopyEnds, IfEnded, IsUntold, Lists, SendsPage, TakesPage};

use crate::frames::{done_head, fill_request, give_head, put_header, send_head};
use crate::rooms::{Rooms, clear_text};
use crate::steps::{Carried, CopyNext, CopyOut, CopyPut, CopySide, CopySteps};
use frame_wire::{HEADER_LENGTH, encode_header};
use std::alloc::{AllocError, Global};
use std::sync::Wait;
use vol_units::PageRef;

/// How a copying ended.
#[derive(Clone, Copy, Debug, PartialEq, Eq)]
pub enum Copied {
    /// Every page of the frozen layers is listed as copied.
    All,
    /// The rebuild was aborted, and its mark stands at that place of the journal.
    Ended(u64),
}

/// Copies page after page until all are listed or the rebuild has ended. A page without blocks is listed without being
/// carried. Out of memory leaves what was done.
pub fn copy_all<R: Wait, C: CopySteps>(
    rt: &R,
    alloc: Global,
    steps: &mut C,
) -> Result<Copied, AllocError>
    requires ready { C.ready steps.old }
    requires idle { (C.copying steps.old).hand ≡ None }
    ensures keeps { KeepsCopying C.ready C.home C.is_aborted C.is_text C.stays C.copying steps.old steps.new }
    ensures ok { IfOk result (λ e. CopyEnds e (C.is_aborted steps.new) (C.is_text steps.new)
        (C.copying steps.old) (C.copying steps.new)) }
{
    let mut rooms = Rooms::new(alloc)?;
    'pages: loop {
        match steps.next(rt) {
            CopyNext::All => return Ok(Copied::All),
            CopyNext::Ended(place) => return Ok(Copied::Ended(place)),
            CopyNext::Page(page) => {
                if let Carried::Ended(place) = copy_page(rt, alloc, steps, &page, &mut rooms)? {
                    return Ok(Copied::Ended(place));
                }
            }
        }
    }
}

/// Copies the page in hand. What is in it the source tells before it is asked, since a page without blocks is not
/// carried.
fn copy_page<R: Wait, C: CopySteps>(
    rt: &R,
    alloc: Global,
    steps: &mut C,
    page: &PageRef,
    rooms: &mut Rooms,
) -> Result<Carried, AllocError>
    requires ready { C.ready steps.old }
    requires hand { (C.copying steps.old).hand ≡ Some page.now }
    requires room { HasRoom rooms.old }
    ensures keeps { KeepsCopying C.ready C.home C.is_aborted C.is_text C.stays C.copying steps.old steps.new }
    ensures room { HasRoom rooms.new }
    ensures ended { IfOk result (λ c. IfEnded c (C.is_aborted steps.new)) }
    ensures listed { result ≡ Ok carried.Whole → Lists (C.copying steps.old) (C.copying steps.new) }
    ensures copied { result ≡ Ok carried.Whole → CopiesPage page.now (C.is_text steps.new)
        (C.copying steps.old) (C.copying steps.new) }
{
    clear_text(&mut rooms.text);
    match steps.out(rt, alloc, page, &mut rooms.text)? {
        CopyOut::Ended(place) => Ok(Carried::Ended(place)),
        CopyOut::Empty => put_page(rt, alloc, steps, page),
        CopyOut::Text => {
            fill_request(&mut rooms.request, page);
            carry_page(rt, alloc, steps, page, &mut rooms.request, &mut rooms.text)
        }
    }
}

/// Carries the page in hand from the source to the replica that is rebuilt. The request to the source is there whole, and
/// the page's text behind a place for a header.
fn carry_page<R: Wait, C: CopySteps>(
    rt: &R,
    alloc: Global,
    steps: &mut C,
    page: &PageRef,
    request: &mut [u8],
    frame: &mut [u8],
) -> Result<Carried, AllocError>
    requires ready { C.ready steps.old }
    requires hand { (C.copying steps.old).hand ≡ Some page.now }
    requires read { (C.copying steps.old).read ≡ true }
    requires asks { (request.old ≡ source_request 0 page.now) × IsFrame request.old }
    requires place { HasPlace frame.old }
    ensures keeps { KeepsCopying C.ready C.home C.is_aborted C.is_text C.stays C.copying steps.old steps.new }
    ensures ended { IfOk result (λ c. IfEnded c (C.is_aborted steps.new)) }
    ensures listed { result ≡ Ok carried.Whole → Lists (C.copying steps.old) (C.copying steps.new) }
    ensures takes { result ≡ Ok carried.Whole → TakesPage page.now (text_in frame.old)
        (C.copying steps.old).source (C.copying steps.new).source }
    ensures sends { result ≡ Ok carried.Whole → SendsPage page.now (text_in frame.old)
        (C.copying steps.old).target (C.copying steps.new).target }
{
    match take_page(rt, alloc, steps, page, request, frame)? {
        Carried::Whole => {}
        ended => return Ok(ended),
    }
    // While the source was asked, the rebuild may have ended, and a replica that has failed is not asked.
    if let Some(place) = steps.ended(rt) {
        return Ok(Carried::Ended(place));
    }
    send_page(rt, alloc, steps, page, frame)
}

/// Asks the source for the page, and has its reply carried.
fn take_page<R: Wait, C: CopySteps>(
    rt: &R,
    alloc: Global,
    steps: &mut C,
    page: &PageRef,
    request: &mut [u8],
    frame: &mut [u8],
) -> Result<Carried, AllocError>
    requires ready { C.ready steps.old }
    requires asks { (request.old ≡ source_request 0 page.now) × IsFrame request.old }
    requires place { HasPlace frame.old }
    ensures keeps { KeepsCopying C.ready C.home C.is_aborted C.is_text C.stays C.copying steps.old steps.new }
    ensures same { KeepsHand (C.copying steps.old) (C.copying steps.new) }
    ensures left { result ≡ Ok carried.Whole → (C.copying steps.new).left ≡ (C.copying steps.old).left }
    ensures ended { IfOk result (λ c. IfEnded c (C.is_aborted steps.new)) }
    ensures takes { result ≡ Ok carried.Whole → TakesPage page.now (text_in frame.old)
        (C.copying steps.old).source (C.copying steps.new).source }
    ensures quiet { result ≡ Ok carried.Whole → IsUntold (C.copying steps.old).target (C.copying steps.new).target }
    ensures text { result ≡ Ok carried.Whole → text_in frame.new ≡ text_in frame.old }
{
    match steps.carry(rt, alloc, CopySide::Source, request)? {
        Carried::Whole => {}
        ended => return Ok(ended),
    }
    put_header(
        frame,
        &give_head(page, (frame.len() - HEADER_LENGTH) as u32),
    );
    steps.carry(rt, alloc, CopySide::Source, frame)
}

/// Sends the page's text to the replica that is rebuilt, which takes it and replies. The header goes in front of the same
/// text again.
fn send_page<R: Wait, C: CopySteps>(
    rt: &R,
    alloc: Global,
    steps: &mut C,
    page: &PageRef,
    frame: &mut [u8],
) -> Result<Carried, AllocError>
    requires ready { C.ready steps.old }
    requires hand { (C.copying steps.old).hand ≡ Some page.now }
    requires read { (C.copying steps.old).read ≡ true }
    requires place { HasPlace frame.old }
    ensures keeps { KeepsCopying C.ready C.home C.is_aborted C.is_text C.stays C.copying steps.old steps.new }
    ensures ended { IfOk result (λ c. IfEnded c (C.is_aborted steps.new)) }
    ensures listed { result ≡ Ok carried.Whole → Lists (C.copying steps.old) (C.copying steps.new) }
    ensures sends { result ≡ Ok carried.Whole → SendsPage page.now (text_in frame.old)
        (C.copying steps.old).target (C.copying steps.new).target }
    ensures quiet { result ≡ Ok carried.Whole → IsUntold (C.copying steps.old).source (C.copying steps.new).source }
{
    let count = (frame.len() - HEADER_LENGTH) as u32;
    put_header(frame, &send_head(page, count));
    match steps.carry(rt, alloc, CopySide::Target, frame)? {
        Carried::Whole => {}
        ended => return Ok(ended),
    }
    match put_page(rt, alloc, steps, page)? {
        Carried::Whole => {}
        ended => return Ok(ended),
    }
    let mut reply = encode_header(&done_head(page, count));
    steps.carry(rt, alloc, CopySide::Target, &mut reply)
}

/// Puts the page in hand, and lists it.
fn put_page<R: Wait, C: CopySteps>(
    rt: &R,
    alloc: Global,
    steps: &mut C,
    page: &PageRef,
) -> Result<Carried, AllocError>
    requires ready { C.ready steps.old }
    requires hand { (C.copying steps.old).hand ≡ Some page.now }
    requires read { (C.copying steps.old).read ≡ true }
    ensures keeps { KeepsCopying C.ready C.home C.is_aborted C.is_text C.stays C.copying steps.old steps.new }
    ensures quiet { AreQuiet (C.copying steps.old) (C.copying steps.new) }
    ensures ended { IfOk result (λ c. IfEnded c (C.is_aborted steps.new)) }
    ensures listed { result ≡ Ok carried.Whole → Lists (C.copying steps.old) (C.copying steps.new) }
{
    match steps.put(rt, alloc, page)? {
        CopyPut::Listed => Ok(Carried::Whole),
        CopyPut::Ended(place) => Ok(Carried::Ended(place)),
    }
}
