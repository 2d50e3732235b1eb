ghost use Rattle.std.specs.Prelude.{◌≡◌, ◌≤◌, true, false, [], length, map, count_by, All, IfOk, OnOk};
ghost use Rattle.outer_traits.specs.Lines.{TellsMore};
ghost use Rattle.volume_model.specs.History.{Spot};
ghost use Rattle.volume_core.specs.State.{state_of, opening_of};
ghost use Rattle.script_text.specs.Good.{IsGood, backs_up};
ghost use Rattle.control_worker.specs.Store.{TellsFault};
ghost use Rattle.stream_turns.specs.Store.{StoreOfRun};
ghost use Rattle.stream_turns.specs.Turn.{IsTaken, IsBetween, KeepsOrigin};
ghost use Rattle.stream_turns.specs.Serving.{IsBegun, IsServed};
ghost use Rattle.stream_turns.specs.Volume.{asks_from, asks_in, stream_calls, heads_of};
ghost use Rattle.stream_workers.specs.Ended.{HaveEnded};

use crate::gated::{ByGate, Wrapping};
use crate::tasks::{are_served, deal, do_tasks, give_back, take_all_in};
use crate::which::backing_up;
use outer_traits::{Gate, Wiring};
use script_text::{LinePlan, Script, Stream};
use std::alloc::{AllocError, Global};
use std::sync::Wait;
use std::thread::Threads;
use stream_turns::{ServedStreams, World};
use target_traits::Target;
use vol_units::{PlainName, TimeText};
use world_holder::{lay_down, take_up};

/// Serves the streams of a script on a World that has begun for it, side by side, a worker in a thread for each. The
/// lines come from the wiring before the first worker begins, and go back to it once all have ended. Each worker passes
/// the gate before and behind each carry, where it waits, and when a call has ended. Backups go to the target.
pub fn serve<R: Threads + Wait + Sync, W: Wiring, T: Target + Send, G: Gate + Sync>(
    rt: &R,
    alloc: Global,
    script: Script,
    world: World,
    wiring: &mut W,
    target: &mut T,
    gate: &G,
) -> Result<ServedStreams, AllocError>
    requires good { IsGood script }
    requires begun { (spot : Spot) × IsBegun script spot world }
    ensures served { (spot : Spot) → IsBegun script spot world
        → IfOk result (IsServed script spot (W.counts wiring.new) (W.carried wiring.new)) }
    ensures opening { IfOk result (λ served. served.world.journal.opening ≡ world.journal.opening) }
    ensures asked { OnOk result (TellsMore (W.asked wiring.old) (W.asked wiring.new) (asks_in script)) }
    // What the target held at first and what it holds now, with the journal, where it tells that.
    ensures store { (spot : Spot) → IsBegun script spot world → IfOk result (λ served. T.tells ≡ true
        → StoreOfRun (T.holds target.old) (T.faults target.old) (T.holds target.new) (T.faults target.new)
        script.volume spot served.world.journal.entries) }
    ensures fault { IfOk result (λ served. TellsFault served.target_fault
        (T.faults target.old) (T.faults target.new)) }
    ensures later { T.faults target.old ≤ T.faults target.new }
    ensures unasked { All (λ s. backs_up s ≡ false) script.streams → target.new ≡ target.old }
{
    let Script {
        streams,
        lines,
        now,
        volume,
        replicas,
        ..
    } = script;
    serve_streams(
        rt,
        alloc,
        lines.as_slice(),
        replicas,
        streams.into_vec(),
        world,
        &volume,
        &now,
        &ByGate { gate },
        gate,
        wiring,
        target,
    )
}

/// Serves the streams on lines of this wiring, wrapped so. Their backups are of that volume, made at that time.
fn serve_streams<
    R: Threads + Wait + Sync,
    W: Wiring,
    V: Wrapping<W>,
    T: Target + Send,
    G: Gate + Sync,
>(
    rt: &R,
    alloc: Global,
    plans: &[LinePlan],
    replicas: u8,
    streams: Vec<Stream>,
    world: World,
    volume: &PlainName,
    now: &TimeText,
    wrapping: &V,
    gate: &G,
    wiring: &mut W,
    target: &mut T,
) -> Result<ServedStreams, AllocError>
    requires some { (1 ≤ length streams.items) × (length streams.items ≤ 16) }
    requires many { length world.indices.items ≡ length streams.items }
    requires replicas { replicas ≡ length world.nodes.items }
    requires taken { All (IsTaken replicas) streams.items }
    requires between { IsBetween world }
    requires begun { world.journal.entries ≡ [] }
    requires one { count_by backs_up streams.items ≤ 1 }
    ensures between { IfOk result (λ served. IsBetween served.world) }
    ensures origin { IfOk result (λ served. KeepsOrigin world served.world) }
    ensures ended { IfOk result (λ served. HaveEnded (map stream_calls streams.items)
        (W.counts wiring.new) (W.carried wiring.new) (state_of served.world)) }
    ensures heads { IfOk result (λ served. served.heads.items ≡ map heads_of streams.items) }
    ensures asked { OnOk result (TellsMore (W.asked wiring.old) (W.asked wiring.new)
        (asks_from plans.now replicas (length streams.items))) }
    ensures store { IfOk result (λ served. T.tells ≡ true
        → StoreOfRun (T.holds target.old) (T.faults target.old) (T.holds target.new) (T.faults target.new)
        volume.now (opening_of (state_of world)) served.world.journal.entries) }
    ensures fault { IfOk result (λ served. TellsFault served.target_fault
        (T.faults target.old) (T.faults target.new)) }
    ensures later { T.faults target.old ≤ T.faults target.new }
    ensures unasked { All (λ s. backs_up s ≡ false) streams.items → target.new ≡ target.old }
{
    let place = backing_up(streams.as_slice());
    let held = Box::new(alloc, world)?;
    let mut tasks = Vec::with_capacity(alloc, streams.len())?;
    let mut heads = Vec::with_capacity(alloc, streams.len())?;
    let (desk, mut first) = lay_down(alloc, held)?;
    let dealt = deal(
        alloc, plans, replicas, streams, &desk, &mut first, wiring, wrapping, gate, &mut tasks,
    );
    if dealt.is_err() {
        give_back(wiring, wrapping, tasks);
        return Err(AllocError);
    }
    let (tasks, target_fault) = do_tasks(rt, alloc, &desk, gate, volume, now, place, tasks, target);
    if !are_served(tasks.as_slice()) {
        give_back(wiring, wrapping, tasks);
        return Err(AllocError);
    }
    if take_all_in(&desk, &mut first, wiring, wrapping, tasks, &mut heads) {
        let world = Box::into_inner(take_up(desk, first));
        Ok(ServedStreams {
            heads,
            world,
            target_fault,
        })
    } else {
        Err(AllocError)
    }
}
