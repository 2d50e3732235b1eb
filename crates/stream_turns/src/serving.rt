ghost use Rattle.std.specs.Prelude.{◌≡◌, ◌≤◌, true, false, [], length, map, All, IfOk, OnOk};
ghost use Rattle.volume_model.specs.History.{Spot};
ghost use Rattle.volume_core.specs.Opened.{blank_opening};
ghost use Rattle.outer_traits.specs.Lines.{TellsMore};
ghost use Rattle.volume_core.specs.State.{state_of, opening_of};
ghost use Rattle.script_text.specs.Good.{IsGood, backs_up};
ghost use Rattle.control_worker.specs.Store.{TellsFault};
ghost use Rattle.stream_turns.specs.Store.{StoreOfRun};
ghost use Rattle.stream_turns.specs.Turn.{IsTaken, IsBetween, KeepsOrigin, HaveTurns};
ghost use Rattle.stream_turns.specs.Serving.{IsBegun, IsServed, IsServedInTurn};
ghost use Rattle.stream_turns.specs.Volume.{asks_from, asks_in, blank_spot, stream_calls, heads_of};

use crate::stream::serve_stream;
use outer_traits::Wiring;
use script_text::{Heads, LinePlan, Script, Stream};
use std::alloc::{AllocError, Global};
use std::sync::Wait;
use target_traits::Target;
use vol_units::{PlainName, TimeText};
use world_holder::World;

/// What the serving of streams has made.
#[derive(Drop)]
pub struct ServedStreams {
    /// The headers of each stream's frames. A control stream has none.
    pub heads: Vec<Heads>,
    /// The World at the end: its journal, and its replicas.
    pub world: World,
    /// Whether the target of backups failed in some stream.
    pub target_fault: bool,
}

/// The World of a script that opens nothing.
pub fn blank_world(alloc: Global, script: &Script) -> Result<World, AllocError>
    requires { IsGood script.now }
    ensures begun { IfOk result (IsBegun script.entry.now (blank_spot script.entry.now)) }
    ensures opening { IfOk result (λ world. world.journal.opening ≡ blank_opening script.entry.now.replicas) }
{
    let streams = script.streams.len() as u8;
    let world = World::blank(alloc, script.size, script.replicas, streams)?;
    Ok(world)
}

/// Serves the streams of a script on a World that has begun for it, in the order of their numbers. The lines of each
/// stream come from the wiring and go back to it. Backups go to the target.
pub fn serve<R: Wait, W: Wiring, T: Target>(
    rt: &R,
    alloc: Global,
    script: Script,
    world: World,
    wiring: &mut W,
    target: &mut T,
) -> Result<ServedStreams, AllocError>
    requires good { IsGood script }
    requires begun { (spot : Spot) × IsBegun script spot world }
    ensures served { (spot : Spot) → IsBegun script spot world
        → IfOk result (IsServed script spot (W.counts wiring.new) (W.carried wiring.new)) }
    ensures turns { (spot : Spot) → IsBegun script spot world
        → IfOk result (IsServedInTurn script spot (W.counts wiring.new)) }
    ensures opening { IfOk result (λ served. served.world.journal.opening ≡ world.journal.opening) }
    ensures asked { OnOk result (TellsMore (W.asked wiring.old) (W.asked wiring.new) (asks_in script)) }
    // What the target held at first and what it holds now, with the journal, where it tells that.
    ensures store { (spot : Spot) → IsBegun script spot world → IfOk result (λ served. T.tells ≡ true
        → StoreOfRun (T.holds target.old) (T.faults target.old) (T.holds target.new) (T.faults target.new)
        script.volume spot served.world.journal.entries) }
    ensures fault { IfOk result (λ served. TellsFault served.target_fault
        (T.faults target.old) (T.faults target.new)) }
    ensures later { T.faults target.old ≤ T.faults target.new }
    ensures unasked { All (λ s. backs_up s ≡ false) script.streams → target.new ≡ target.old }
{
    let Script {
        streams,
        lines,
        now,
        volume,
        ..
    } = script;
    serve_streams(
        rt,
        alloc,
        lines.as_slice(),
        streams.into_vec(),
        world,
        wiring,
        &volume,
        &now,
        target,
    )
}

/// Serves the streams one after another.
fn serve_streams<R: Wait, W: Wiring, T: Target>(
    rt: &R,
    alloc: Global,
    plans: &[LinePlan],
    streams: Vec<Stream>,
    world: World,
    wiring: &mut W,
    volume: &PlainName,
    now: &TimeText,
    target: &mut T,
) -> Result<ServedStreams, AllocError>
    requires few { length streams.items ≤ 16 }
    requires many { length world.indices.items ≡ length streams.items }
    requires taken { All (IsTaken (length world.nodes.items)) streams.items }
    requires between { IsBetween world }
    requires begun { world.journal.entries ≡ [] }
    ensures between { IfOk result (λ served. IsBetween served.world) }
    ensures origin { IfOk result (λ served. KeepsOrigin world served.world) }
    ensures turns { IfOk result (λ served. HaveTurns (map stream_calls streams.items) world served.world
        (W.counts wiring.new) (W.carried wiring.new)) }
    ensures heads { IfOk result (λ served. served.heads.items ≡ map heads_of streams.items) }
    ensures asked { OnOk result (TellsMore (W.asked wiring.old) (W.asked wiring.new)
        (asks_from plans.now (length world.nodes.items) (length streams.items))) }
    ensures store { IfOk result (λ served. T.tells ≡ true
        → StoreOfRun (T.holds target.old) (T.faults target.old) (T.holds target.new) (T.faults target.new)
        volume.now (opening_of (state_of world)) served.world.journal.entries) }
    ensures fault { IfOk result (λ served. TellsFault served.target_fault
        (T.faults target.old) (T.faults target.new)) }
    ensures later { T.faults target.old ≤ T.faults target.new }
    ensures unasked { All (λ s. backs_up s ≡ false) streams.items → target.new ≡ target.old }
{
    let mut world = world;
    let mut target_fault = false;
    let mut heads = Vec::new(alloc);
    let mut number = 0;
    for stream in streams {
        let turned = serve_stream(
            rt, alloc, plans, &stream, number, world, wiring, volume, now, target,
        )?;
        world = turned.world;
        target_fault |= turned.target_fault;
        heads.push(heads_in(stream))?;
        number += 1;
    }
    Ok(ServedStreams {
        heads,
        world,
        target_fault,
    })
}

/// The headers of a stream's frames. A control stream has none.
pub fn heads_in(stream: Stream) -> Heads
    ensures { result ≡ heads_of stream }
{
    match stream {
        Stream::Frames(frames) => Heads::of(frames),
        Stream::Control(_) => Heads::none(),
    }
}
