//! One stream's turn.

ghost use Rattle.std.specs.Prelude.{◌≡◌, ◌<◌, ◌≤◌, true, false, length, map, OnOk, IfOk, slice_index_or};
ghost use Rattle.volume_core.specs.State.{state_of, opening_of};
ghost use Rattle.outer_traits.specs.Lines.{TellsMore};
ghost use Rattle.client_worker.specs.Exchanges.{told_in};
ghost use Rattle.control_worker.specs.Store.{StoreSoFar, TellsFault};
ghost use Rattle.script_text.specs.Good.{backs_up};
ghost use Rattle.world_holder.specs.View.{own_entries};
ghost use Rattle.stream_turns.specs.Turn.{IsTaken, IsBetween, HasNoEntry, KeepsOrigin, HasTurn, AreNewLines};
ghost use Rattle.stream_turns.specs.Turns.{TellsOthers};
ghost use Rattle.stream_turns.specs.Volume.{asks_to, stream_calls};

use crate::lines::{channels_of, take_back};
use client_worker::{Channel, Worker};
use control_worker::ControlWorker;
use outer_traits::{Line, Wiring};
use script_text::{LinePlan, Stream};
use std::alloc::{AllocError, Global};
use std::sync::Wait;
use target_traits::Target;
use vol_units::{PlainName, TimeText};
use world_holder::{Hand, World};
use world_steps::{NoGate, Steps};

/// What a stream's turn leaves.
#[derive(Drop)]
pub(crate) struct Turned {
    pub(crate) world: World,
    /// Whether the target of its backups failed.
    pub(crate) target_fault: bool,
}

/// Serves one stream on lines of its own. Its backups are of that volume, and go to the target, made at that time. The
/// lines go back also where memory runs out.
pub(crate) fn serve_stream<R: Wait, W: Wiring, T: Target>(
    rt: &R,
    alloc: Global,
    plans: &[LinePlan],
    stream: &Stream,
    number: u8,
    world: World,
    wiring: &mut W,
    volume: &PlainName,
    now: &TimeText,
    target: &mut T,
) -> Result<Turned, AllocError>
    requires there { number < length world.indices.items }
    requires between { IsBetween world }
    requires taken { IsTaken (length world.nodes.items) stream.now }
    requires first { HasNoEntry number world }
    ensures between { IfOk result (λ t. IsBetween t.world) }
    ensures origin { IfOk result (λ t. KeepsOrigin world t.world) }
    ensures turn { IfOk result (λ t. HasTurn (stream_calls stream.now) number world t.world
        (W.counts wiring.new number) (W.carried wiring.new number)) }
    ensures counts { OnOk result (TellsOthers number (W.counts wiring.old) (W.counts wiring.new)) }
    ensures carried { OnOk result (TellsOthers number (W.carried wiring.old) (W.carried wiring.new)) }
    ensures asked { OnOk result (TellsMore (W.asked wiring.old) (W.asked wiring.new)
        (asks_to plans.now number (length world.nodes.items))) }
    ensures store { IfOk result (λ t. backs_up stream.now ≡ true → T.tells ≡ true
        → StoreSoFar (T.holds target.old) (T.faults target.old) (T.holds target.new) (T.faults target.new) volume.now
        (own_entries number (opening_of (state_of world)) t.world.journal.entries)) }
    ensures fault { IfOk result (λ t. TellsFault t.target_fault (T.faults target.old) (T.faults target.new)) }
    ensures later { T.faults target.old ≤ T.faults target.new }
    ensures unasked { backs_up stream.now ≡ false → target.new ≡ target.old }
{
    let replicas = world.nodes.len() as u8;
    let held = Box::new(alloc, world)?;
    let channels = channels_of(alloc, plans, number, replicas, wiring)?;
    let (turned, channels) = run(
        rt, alloc, stream, number, held, channels, volume, now, target,
    );
    take_back(wiring, channels);
    turned
}

/// Serves the stream on these lines, and gives them back.
fn run<R: Wait, L: Line + Drop, T: Target>(
    rt: &R,
    alloc: Global,
    stream: &Stream,
    number: u8,
    held: Box<World>,
    channels: Vec<Channel<L>>,
    volume: &PlainName,
    now: &TimeText,
    target: &mut T,
) -> (Result<Turned, AllocError>, Vec<Channel<L>>)
    requires there { number < length held.value.indices.items }
    requires between { IsBetween held.value }
    requires taken { IsTaken (length held.value.nodes.items) stream.now }
    requires first { HasNoEntry number held.value }
    requires new { AreNewLines number (length held.value.nodes.items)
        (map (λ c. L.ends c.line) channels.items) (map (λ c. L.count c.line) channels.items)
        (map (λ c. L.carried c.line) channels.items) }
    ensures between { IfOk result.0 (λ t. IsBetween t.world) }
    ensures origin { IfOk result.0 (λ t. KeepsOrigin held.value t.world) }
    ensures ends { map (λ c. L.ends c.line) result.1.items ≡ map (λ c. L.ends c.line) channels.items }
    ensures turn { IfOk result.0 (λ t. HasTurn (stream_calls stream.now) number held.value t.world
        (λ r. slice_index_or (map (λ c. L.count c.line) result.1.items) r 0)
        (told_in (map (λ c. L.carried c.line) result.1.items))) }
    ensures store { IfOk result.0 (λ t. backs_up stream.now ≡ true → T.tells ≡ true
        → StoreSoFar (T.holds target.old) (T.faults target.old) (T.holds target.new) (T.faults target.new) volume.now
        (own_entries number (opening_of (state_of held.value)) t.world.journal.entries)) }
    ensures fault { IfOk result.0 (λ t. TellsFault t.target_fault (T.faults target.old) (T.faults target.new)) }
    ensures later { T.faults target.old ≤ T.faults target.new }
    ensures unasked { backs_up stream.now ≡ false → target.new ≡ target.old }
{
    let steps = Steps {
        holder: Hand::of(held, number),
        stream: number,
        gate: NoGate,
        ended: 0,
    };
    match stream {
        Stream::Frames(frames) => {
            let mut worker = Worker::new(alloc, steps, channels);
            let served = worker.run_stream(rt, alloc, frames);
            let (steps, channels) = worker.into_parts();
            match served {
                Ok(()) => {
                    let held = steps.holder.into_world(steps.stream);
                    let turned = Turned {
                        world: Box::into_inner(held),
                        target_fault: false,
                    };
                    (Ok(turned), channels)
                }
                Err(error) => (Err(error), channels),
            }
        }
        Stream::Control(commands) => {
            let mut worker = ControlWorker::new(steps, channels);
            let served = worker.run_control(rt, alloc, commands.as_slice(), volume, now, target);
            let (steps, channels) = worker.into_parts();
            match served {
                Ok(served) => {
                    let held = steps.holder.into_world(steps.stream);
                    let turned = Turned {
                        world: Box::into_inner(held),
                        target_fault: served.target_fault,
                    };
                    (Ok(turned), channels)
                }
                Err(error) => (Err(error), channels),
            }
        }
    }
}
