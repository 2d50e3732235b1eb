//! A worker of a stream: what it is given, and how it serves the stream.

ghost use Rattle.std.specs.Prelude.{◌≡◌, ◌≤◌, true, length, map, Some, All, IfOk, slice_index_or};
ghost use Rattle.desk_lock.specs.Seats.{number_of, last_of, IsSeatOf};
ghost use Rattle.world_holder.specs.Laid.{laid};
ghost use Rattle.client_worker.specs.Asks.{IsAsked};
ghost use Rattle.client_worker.specs.Exchanges.{told_in};
ghost use Rattle.control_worker.specs.Serving.{IsForWorker};
ghost use Rattle.control_worker.specs.Store.{StoreSoFar, TellsFault};
ghost use Rattle.frame_stream.specs.Asked.{call_of};
ghost use Rattle.volume_model.specs.declared.call.Call.TheVariants as call;
ghost use Rattle.script_text.specs.Good.{backs_up};
ghost use Rattle.stream_turns.specs.Turn.{IsTaken, AreNewLines};
ghost use Rattle.stream_turns.specs.Volume.{stream_calls};
ghost use Rattle.stream_workers.specs.Ended.{HasEnded};
ghost use Rattle.stream_workers.specs.Tasks.{Begins, IsTask, IsDone, IsLent, own_at};

use client_worker::{Channel, Frames, Worker};
use control_worker::{ControlWorker, Served};
use outer_traits::{Gate, Line};
use script_text::{Command, Stream};
use std::alloc::{AllocError, Global};
use std::mem;
use std::sync::Wait;
use target_traits::Target;
use vol_units::{PlainName, TimeText};
use world_holder::{AtSeat, Desk, Seat, WorldOnDesk};
use world_steps::{SharedGate, Steps};

/// A stream, and what its worker has: a seat, and a line to each replica.
#[derive(Drop)]
pub(crate) struct Task<L: Drop> {
    pub(crate) number: u8,
    pub(crate) stream: Stream,
    /// None while the worker has it in hand.
    pub(crate) seat: Option<Seat<WorldOnDesk>>,
    /// Empty while the worker has them in hand.
    pub(crate) channels: Vec<Channel<L>>,
    /// Whether the stream was served to its end.
    pub(crate) served: bool,
}

/// Serves the stream to its end, unless memory runs out. Its backups are of that volume, and go to the target, made at that
/// time. Says whether the target has failed.
pub(crate) fn work<R: Wait, L: Line + Drop, G: Gate, T: Target>(
    rt: &R,
    alloc: Global,
    desk: &Desk<WorldOnDesk>,
    gate: &G,
    volume: &PlainName,
    now: &TimeText,
    task: &mut Task<L>,
    target: &mut T,
) -> bool
    requires { IsTask L.ends L.count L.carried desk.now task.old }
    ensures done { IsDone L.ends L.count L.carried desk.now task.old task.new }
    ensures lent { IsLent T.tells T.holds T.faults volume.now target.old target.new result task.new }
{
    let seat = task.seat.take().unwrap();
    let channels = mem::replace(&mut task.channels, Vec::new(alloc));
    let (seat, channels, served, target_fault) = serve_stream(
        rt,
        alloc,
        desk,
        gate,
        volume,
        now,
        task.number,
        seat,
        &task.stream,
        channels,
        target,
    );
    task.seat = Some(seat);
    task.channels = channels;
    task.served = served;
    target_fault
}

/// Serves a stream at a seat on these lines, gives both back, and says whether memory sufficed, and whether the target has
/// failed. Where memory did not suffice, no clause tells of the seat.
fn serve_stream<R: Wait, L: Line + Drop, G: Gate, T: Target>(
    rt: &R,
    alloc: Global,
    desk: &Desk<WorldOnDesk>,
    gate: &G,
    volume: &PlainName,
    now: &TimeText,
    number: u8,
    seat: Seat<WorldOnDesk>,
    stream: &Stream,
    channels: Vec<Channel<L>>,
    target: &mut T,
) -> (Seat<WorldOnDesk>, Vec<Channel<L>>, bool, bool)
    requires begins { Begins desk.now seat number }
    requires taken { IsTaken (length (laid (last_of seat)).nodes) stream.now }
    requires few { length (laid (last_of seat)).nodes ≤ 8 }
    requires lines { AreNewLines number (length (laid (last_of seat)).nodes)
        (map (λ c. L.ends c.line) channels.items) (map (λ c. L.count c.line) channels.items)
        (map (λ c. L.carried c.line) channels.items) }
    ensures seat { result.2 ≡ true → IsSeatOf desk.now result.0 × (number_of result.0 ≡ Some number) }
    ensures count { length result.1.items ≡ length channels.items }
    ensures ends { map (λ c. L.ends c.line) result.1.items ≡ map (λ c. L.ends c.line) channels.items }
    ensures replicas { result.2 ≡ true
        → length (laid (last_of result.0)).nodes ≡ length (laid (last_of seat)).nodes }
    ensures served { result.2 ≡ true → HasEnded number (stream_calls stream.now)
        (λ r. slice_index_or (map (λ c. L.count c.line) result.1.items) r 0)
        (told_in (map (λ c. L.carried c.line) result.1.items)) (laid (last_of result.0)) }
    ensures later { T.faults target.old ≤ T.faults target.new }
    ensures told { result.2 ≡ true → TellsFault result.3 (T.faults target.old) (T.faults target.new) }
    ensures store { result.2 ≡ true → backs_up stream.now ≡ true → T.tells ≡ true
        → StoreSoFar (T.holds target.old) (T.faults target.old) (T.holds target.new) (T.faults target.new)
        volume.now (own_at number result.0) }
{
    match stream {
        Stream::Frames(frames) => {
            let (seat, channels, served) = serve_frames(
                rt, alloc, desk, gate, number, seat, frames, channels,
            );
            (seat, channels, served, false)
        }
        Stream::Control(commands) => serve_commands(
            rt,
            alloc,
            desk,
            gate,
            volume,
            now,
            number,
            seat,
            commands.as_slice(),
            channels,
            target,
        ),
    }
}

/// The same of a stream of frames.
fn serve_frames<R: Wait, L: Line + Drop, G: Gate>(
    rt: &R,
    alloc: Global,
    desk: &Desk<WorldOnDesk>,
    gate: &G,
    number: u8,
    seat: Seat<WorldOnDesk>,
    frames: &Frames,
    channels: Vec<Channel<L>>,
) -> (Seat<WorldOnDesk>, Vec<Channel<L>>, bool)
    requires begins { Begins desk.now seat number }
    requires asked { All IsAsked frames.now }
    requires few { length (laid (last_of seat)).nodes ≤ 8 }
    requires lines { AreNewLines number (length (laid (last_of seat)).nodes)
        (map (λ c. L.ends c.line) channels.items) (map (λ c. L.count c.line) channels.items)
        (map (λ c. L.carried c.line) channels.items) }
    ensures seat { result.2 ≡ true → IsSeatOf desk.now result.0 × (number_of result.0 ≡ Some number) }
    ensures count { length result.1.items ≡ length channels.items }
    ensures ends { map (λ c. L.ends c.line) result.1.items ≡ map (λ c. L.ends c.line) channels.items }
    ensures replicas { result.2 ≡ true
        → length (laid (last_of result.0)).nodes ≡ length (laid (last_of seat)).nodes }
    ensures served { result.2 ≡ true → HasEnded number (map call_of frames.now)
        (λ r. slice_index_or (map (λ c. L.count c.line) result.1.items) r 0)
        (told_in (map (λ c. L.carried c.line) result.1.items)) (laid (last_of result.0)) }
{
    let steps = Steps {
        holder: AtSeat { desk, seat },
        stream: number,
        gate: SharedGate { gate },
        ended: 0,
    };
    let mut worker = Worker::new(alloc, steps, channels);
    let served = worker.run_stream(rt, alloc, frames).is_ok();
    let (steps, channels) = worker.into_parts();
    (steps.holder.seat, channels, served)
}

/// The same of a stream of commands.
fn serve_commands<R: Wait, L: Line + Drop, G: Gate, T: Target>(
    rt: &R,
    alloc: Global,
    desk: &Desk<WorldOnDesk>,
    gate: &G,
    volume: &PlainName,
    now: &TimeText,
    number: u8,
    seat: Seat<WorldOnDesk>,
    commands: &[Command],
    channels: Vec<Channel<L>>,
    target: &mut T,
) -> (Seat<WorldOnDesk>, Vec<Channel<L>>, bool, bool)
    requires begins { Begins desk.now seat number }
    requires taken { All (IsForWorker (length (laid (last_of seat)).nodes)) commands.now }
    requires few { length (laid (last_of seat)).nodes ≤ 8 }
    requires lines { AreNewLines number (length (laid (last_of seat)).nodes)
        (map (λ c. L.ends c.line) channels.items) (map (λ c. L.count c.line) channels.items)
        (map (λ c. L.carried c.line) channels.items) }
    ensures seat { result.2 ≡ true → IsSeatOf desk.now result.0 × (number_of result.0 ≡ Some number) }
    ensures count { length result.1.items ≡ length channels.items }
    ensures ends { map (λ c. L.ends c.line) result.1.items ≡ map (λ c. L.ends c.line) channels.items }
    ensures replicas { result.2 ≡ true
        → length (laid (last_of result.0)).nodes ≡ length (laid (last_of seat)).nodes }
    ensures served { result.2 ≡ true → HasEnded number (map call.Command commands.now)
        (λ r. slice_index_or (map (λ c. L.count c.line) result.1.items) r 0)
        (told_in (map (λ c. L.carried c.line) result.1.items)) (laid (last_of result.0)) }
    ensures later { T.faults target.old ≤ T.faults target.new }
    ensures told { result.2 ≡ true → TellsFault result.3 (T.faults target.old) (T.faults target.new) }
    ensures store { result.2 ≡ true → T.tells ≡ true
        → StoreSoFar (T.holds target.old) (T.faults target.old) (T.holds target.new) (T.faults target.new)
        volume.now (own_at number result.0) }
{
    let steps = Steps {
        holder: AtSeat { desk, seat },
        stream: number,
        gate: SharedGate { gate },
        ended: 0,
    };
    let mut worker = ControlWorker::new(steps, channels);
    let served = worker.run_control(rt, alloc, commands, volume, now, target);
    let (steps, channels) = worker.into_parts();
    (
        steps.holder.seat,
        channels,
        served.is_ok(),
        tells_fault(&served),
    )
}

/// Whether the commands say that the target has failed.
fn tells_fault(served: &Result<Served, AllocError>) -> bool
    ensures { IfOk served.now (λ s. result ≡ s.target_fault) }
{
    match served {
        Ok(served) => served.target_fault,
        Err(_) => false,
    }
}
