//! The tasks of all streams: they are dealt out, done side by side, and taken in.

ghost use Rattle.std.specs.Prelude.{◌≡◌, ◌≤◌, ℕ, ◌<◌, ◌++◌, ◌∷◌, [], true, false, length, map, slice_index_or, All, Some, None, OnOk};
ghost use Rattle.std.specs.Thread.{IsSync, IsSend};
ghost use Rattle.desk_lock.specs.Known.{keeping};
ghost use Rattle.desk_lock.specs.Seats.{known, number_of, made_of, last_of, seats_of, IsSeatOf};
ghost use Rattle.outer_traits.specs.Lines.{RecordsOf, TellsMore};
ghost use Rattle.stream_turns.specs.Turn.{IsTaken};
ghost use Rattle.stream_turns.specs.Volume.{asks_from, heads_of};
ghost use Rattle.world_holder.specs.Laid.{laid};
ghost use Rattle.stream_workers.specs.Tasks.{IsTask, IsBack, IsDone, IsLent, IsIn, IsJoinedIn, AreNumbered, AreDone};

use crate::gated::Wrapping;
use crate::lines::{give_lines_back, wrapped_channels};
use crate::nowhere::Nowhere;
use crate::task::{Task, work};
use outer_traits::{Gate, Line, Wiring};
use script_text::{LinePlan, Stream};
use std::alloc::{AllocError, Global};
use std::sync::Wait;
use std::thread;
use std::thread::Threads;
use stream_turns::{Heads, heads_in};
use target_traits::Target;
use vol_units::{PlainName, TimeText};
use world_holder::{AtSeat, Desk, Seat, WorldOnDesk};

/// Gives each stream its seat, and its lines. Out of memory leaves the tasks of the streams before.
pub(crate) fn deal<W: Wiring, V: Wrapping<W>, G: Gate>(
    alloc: Global,
    plans: &[LinePlan],
    replicas: u8,
    streams: Vec<Stream>,
    desk: &Desk<WorldOnDesk>,
    first: &mut Seat<WorldOnDesk>,
    wiring: &mut W,
    wrapping: &V,
    gate: &G,
    tasks: &mut Vec<Task<V::Wrapped>>,
) -> Result<(), AllocError>
    requires seat { IsSeatOf desk.now first.old × (number_of first.old ≡ None) × (made_of first.old ≡ 0) }
    requires fresh { (known first.old).joined ≡ [] }
    requires few { length streams.items ≤ 16 }
    requires room { length streams.items ≤ seats_of desk.now }
    requires many { length (laid (last_of first.old)).indices ≡ length streams.items }
    requires replicas { (replicas ≡ length (laid (last_of first.old)).nodes) × (replicas ≤ 8) }
    requires taken { All (IsTaken replicas) streams.items }
    requires none { tasks.old.items ≡ [] }
    ensures seat { IsSeatOf desk.now first.new × (number_of first.new ≡ None) }
    ensures fresh { ((known first.new).joined ≡ []) × (last_of first.new ≡ last_of first.old) }
    ensures made { OnOk result (made_of first.new ≡ length streams.items) }
    ensures tasks { OnOk result (All (IsTask V.Wrapped.ends V.Wrapped.count
        V.Wrapped.carried desk.now) tasks.new.items) }
    ensures numbered { OnOk result (AreNumbered tasks.new.items) }
    ensures streams { OnOk result (map (λ j. j.stream) tasks.new.items ≡ streams.items) }
    ensures asked { OnOk result (TellsMore (W.asked wiring.old) (W.asked wiring.new)
        (asks_from plans.now replicas (length streams.items))) }
{
    let mut number = 0;
    for stream in streams {
        let channels = wrapped_channels(alloc, plans, number, replicas, wiring, wrapping)?;
        let at = AtSeat::split_off(desk, first, number);
        tasks.push(Task {
            number,
            stream,
            seat: Some(at.seat),
            channels,
            served: false,
        })?;
        number += 1;
    }
    Ok(())
}

/// A thread for each task does it, with a target that keeps nothing; where none can be made, its caller does it.
fn do_others<R: Threads + Wait + Sync, L: Line + Send + Drop, G: Gate + Sync>(
    rt: &R,
    alloc: Global,
    desk: &Desk<WorldOnDesk>,
    gate: &G,
    volume: &PlainName,
    now: &TimeText,
    tasks: &mut [Task<L>],
)
    requires { All (IsTask L.ends L.count L.carried desk.now) tasks.old }
    ensures { AreDone L.ends L.count L.carried desk.now tasks.old tasks.new }
{
    let threads = tasks.len().max(1);
    thread::for_each_mut(
        rt,
        tasks,
        threads,
        &|_, task: &mut Task<L>|
            requires { IsTask L.ends L.count L.carried desk.now task.now }
            ensures { IsDone L.ends L.count L.carried desk.entry.now task.entry.now task.exit.now }
        {
            work(
                rt,
                alloc,
                desk,
                gate,
                volume,
                now,
                task,
                &mut Nowhere { alloc },
            );
        },
    );
}

/// One task is done with the target, and those behind it beside it. Says whether the target has failed.
fn do_with_target<
    R: Threads + Wait + Sync,
    L: Line + Send + Drop,
    G: Gate + Sync,
    T: Target + Send,
>(
    rt: &R,
    alloc: Global,
    desk: &Desk<WorldOnDesk>,
    gate: &G,
    volume: &PlainName,
    now: &TimeText,
    one: &mut Task<L>,
    behind: &mut [Task<L>],
    target: &mut T,
) -> bool
    requires one { IsTask L.ends L.count L.carried desk.now one.old }
    requires behind { All (IsTask L.ends L.count L.carried desk.now) behind.old }
    ensures one { IsDone L.ends L.count L.carried desk.now one.old one.new }
    ensures lent { IsLent T.tells T.holds T.faults volume.now target.old target.new result one.new }
    ensures behind { AreDone L.ends L.count L.carried desk.now behind.old behind.new }
{
    let mut lent = || -> bool
        requires { IsTask L.ends L.count L.carried desk.now one.now }
        ensures { IsDone L.ends L.count L.carried desk.entry.now one.entry.now one.exit.now
            × IsLent T.tells T.holds T.faults volume.entry.now target.entry.now target.exit.now result one.exit.now }
    { work(rt, alloc, desk, gate, volume, now, one, target) };
    let mut others = ||
        requires { IsSync R.row × IsSync G.row × IsSend L.row
            × All (IsTask L.ends L.count L.carried desk.now) behind.now }
        ensures { AreDone L.ends L.count L.carried desk.entry.now behind.entry.now behind.exit.now }
    { do_others(rt, alloc, desk, gate, volume, now, behind) };
    thread::join_mut(rt, &mut lent, &mut others).0
}

/// The same, with those before it beside it too.
fn do_beside<R: Threads + Wait + Sync, L: Line + Send + Drop, G: Gate + Sync, T: Target + Send>(
    rt: &R,
    alloc: Global,
    desk: &Desk<WorldOnDesk>,
    gate: &G,
    volume: &PlainName,
    now: &TimeText,
    before: &mut [Task<L>],
    one: &mut Task<L>,
    behind: &mut [Task<L>],
    target: &mut T,
) -> bool
    requires before { All (IsTask L.ends L.count L.carried desk.now) before.old }
    requires one { IsTask L.ends L.count L.carried desk.now one.old }
    requires behind { All (IsTask L.ends L.count L.carried desk.now) behind.old }
    ensures before { AreDone L.ends L.count L.carried desk.now before.old before.new }
    ensures one { IsDone L.ends L.count L.carried desk.now one.old one.new }
    ensures lent { IsLent T.tells T.holds T.faults volume.now target.old target.new result one.new }
    ensures behind { AreDone L.ends L.count L.carried desk.now behind.old behind.new }
{
    let mut others = ||
        requires { IsSync R.row × IsSync G.row × IsSend L.row
            × All (IsTask L.ends L.count L.carried desk.now) before.now }
        ensures { AreDone L.ends L.count L.carried desk.entry.now before.entry.now before.exit.now }
    { do_others(rt, alloc, desk, gate, volume, now, before) };
    let mut lent = || -> bool
        requires { IsSync R.row × IsSync G.row × IsSend L.row × IsSend T.row
            × IsTask L.ends L.count L.carried desk.now one.now
            × All (IsTask L.ends L.count L.carried desk.now) behind.now }
        ensures { IsDone L.ends L.count L.carried desk.entry.now one.entry.now one.exit.now
            × IsLent T.tells T.holds T.faults volume.entry.now target.entry.now target.exit.now result one.exit.now
            × AreDone L.ends L.count L.carried desk.entry.now behind.entry.now behind.exit.now }
    { do_with_target(rt, alloc, desk, gate, volume, now, one, behind, target) };
    thread::join_mut(rt, &mut others, &mut lent).1
}

/// All are done side by side, the one at that place with the target, if there is one. Says whether the target has failed.
fn do_all<R: Threads + Wait + Sync, L: Line + Send + Drop, G: Gate + Sync, T: Target + Send>(
    rt: &R,
    alloc: Global,
    desk: &Desk<WorldOnDesk>,
    gate: &G,
    volume: &PlainName,
    now: &TimeText,
    place: usize,
    tasks: &mut [Task<L>],
    target: &mut T,
) -> bool
    requires { All (IsTask L.ends L.count L.carried desk.now) tasks.old }
    ensures done { AreDone L.ends L.count L.carried desk.now tasks.old tasks.new }
    ensures lent { place < length tasks.old → (d : _) → IsLent T.tells T.holds T.faults volume.now
        target.old target.new result (slice_index_or tasks.new place d) }
    ensures unlent { length tasks.old ≤ place → (target.new ≡ target.old) × (result ≡ false) }
{
    if place >= tasks.len() {
        do_others(rt, alloc, desk, gate, volume, now, tasks);
        return false;
    }
    let (before, rest) = tasks.split_at_mut(place);
    match rest.split_first_mut() {
        Some((one, behind)) => do_beside(
            rt, alloc, desk, gate, volume, now, before, one, behind, target,
        ),
        None => false,
    }
}

/// The same of tasks in a vector.
pub(crate) fn do_tasks<
    R: Threads + Wait + Sync,
    L: Line + Send + Drop,
    G: Gate + Sync,
    T: Target + Send,
>(
    rt: &R,
    alloc: Global,
    desk: &Desk<WorldOnDesk>,
    gate: &G,
    volume: &PlainName,
    now: &TimeText,
    place: usize,
    tasks: Vec<Task<L>>,
    target: &mut T,
) -> (Vec<Task<L>>, bool)
    requires { All (IsTask L.ends L.count L.carried desk.now) tasks.items }
    ensures done { AreDone L.ends L.count L.carried desk.now tasks.items result.0.items }
    ensures lent { place < length tasks.items → (d : _) → IsLent T.tells T.holds T.faults volume.now
        target.old target.new result.1 (slice_index_or result.0.items place d) }
    ensures unlent { length tasks.items ≤ place → (target.new ≡ target.old) × (result.1 ≡ false) }
{
    let mut tasks = tasks;
    let fault = do_all(
        rt,
        alloc,
        desk,
        gate,
        volume,
        now,
        place,
        tasks.as_mut_slice(),
        target,
    );
    (tasks, fault)
}

/// Whether each stream was served to its end.
pub(crate) fn are_served<L: Drop>(tasks: &[Task<L>]) -> bool
    ensures { result ≡ true → All (λ j. j.served ≡ true) tasks.now }
{
    for task in tasks {
        if !task.served {
            return false;
        }
    }
    true
}

/// Takes all lines back, of tasks that are not done.
pub(crate) fn give_back<W: Wiring, V: Wrapping<W>>(
    wiring: &mut W,
    wrapping: &V,
    tasks: Vec<Task<V::Wrapped>>,
) {
    for task in tasks {
        give_lines_back(wiring, wrapping, task.channels);
    }
}

/// Takes all lines back, and joins all seats. Says whether memory sufficed for the headers.
pub(crate) fn take_all_in<W: Wiring, V: Wrapping<W>>(
    desk: &Desk<WorldOnDesk>,
    first: &mut Seat<WorldOnDesk>,
    wiring: &mut W,
    wrapping: &V,
    tasks: Vec<Task<V::Wrapped>>,
    heads: &mut Vec<Heads>,
) -> bool
    requires first { IsSeatOf desk.now first.old × (number_of first.old ≡ None) }
    requires back { All (IsBack V.Wrapped.ends V.Wrapped.count
        V.Wrapped.carried desk.now) tasks.items }
    requires numbered { AreNumbered tasks.items }
    requires none { heads.old.items ≡ [] }
    ensures first { IsSeatOf desk.now first.new × (number_of first.new ≡ None) }
    ensures same { (made_of first.new ≡ made_of first.old) × (last_of first.new ≡ last_of first.old) }
    ensures joined { All (IsIn V.Wrapped.count V.Wrapped.carried (known first.new).joined
        (W.counts wiring.new) (W.carried wiring.new)) tasks.items }
    ensures heads { result ≡ true → heads.new.items ≡ map (λ j. heads_of j.stream) tasks.items }
    ensures asked { W.asked wiring.new ≡ W.asked wiring.old }
{
    let mut well = true;
    for task in tasks {
        let stream = take_in(desk, first, wiring, wrapping, task);
        let kept = keep_heads(heads, stream);
        well = both(well, kept);
    }
    well
}

/// Takes one task's lines back, and joins its seat.
fn take_in<W: Wiring, V: Wrapping<W>>(
    desk: &Desk<WorldOnDesk>,
    first: &mut Seat<WorldOnDesk>,
    wiring: &mut W,
    wrapping: &V,
    task: Task<V::Wrapped>,
) -> Stream
    requires first { IsSeatOf desk.now first.old × (number_of first.old ≡ None) }
    requires back { IsBack V.Wrapped.ends V.Wrapped.count V.Wrapped.carried desk.now task }
    ensures first { IsSeatOf desk.now first.new }
    ensures joined { IsJoinedIn task (known first.old) (known first.new) }
    ensures counts { RecordsOf (W.counts wiring.old) (W.counts wiring.new) task.number
        (map (λ c. V.Wrapped.count c.line) task.channels.items) }
    ensures carried { RecordsOf (W.carried wiring.old) (W.carried wiring.new) task.number
        (map (λ c. V.Wrapped.carried c.line) task.channels.items) }
    ensures stream { result ≡ task.stream }
    ensures asked { W.asked wiring.new ≡ W.asked wiring.old }
{
    let Task {
        number: _,
        stream,
        seat,
        channels,
        served: _,
    } = task;
    give_lines_back(wiring, wrapping, channels);
    desk.join(first, seat.unwrap());
    stream
}

/// Keeps the headers of a stream's frames, and says whether memory sufficed.
fn keep_heads(heads: &mut Vec<Heads>, stream: Stream) -> bool
    ensures { result ≡ true → heads.new.items ≡ heads.old.items ++ heads_of stream ∷ [] }
{
    heads.push(heads_in(stream)).is_ok()
}

fn both(a: bool, b: bool) -> bool
    ensures { result ≡ true → (a ≡ true) × (b ≡ true) }
{
    a && b
}
