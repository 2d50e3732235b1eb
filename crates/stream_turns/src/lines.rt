//! The lines of one stream's worker.

ghost use Rattle.std.specs.Prelude.{◌≡◌, ℕ, map, IfOk, OnOk};
ghost use Rattle.outer_traits.specs.Lines.{AreLinesOf, RecordsOf, TellsMore, TellsSame};
ghost use Rattle.stream_turns.specs.Turn.{AreNewLines};
ghost use Rattle.stream_turns.specs.Volume.{asks_to};

use client_worker::Channel;
use outer_traits::Wiring;
use script_text::{LinePlan, plan_of};
use std::alloc::{AllocError, Global};

/// The worker's lines to the replicas, in their order. Each fails as the script plans it.
pub(crate) fn channels_of<W: Wiring>(
    alloc: Global,
    plans: &[LinePlan],
    worker: u8,
    replicas: u8,
    wiring: &mut W,
) -> Result<Vec<Channel<W::L>>, AllocError>
    ensures new { IfOk result (λ channels. AreNewLines worker replicas
        (map (λ c. W.L.ends c.line) channels.items) (map (λ c. W.L.count c.line) channels.items)
        (map (λ c. W.L.carried c.line) channels.items)) }
    ensures counts { TellsSame (W.counts wiring.old) (W.counts wiring.new) }
    ensures carried { TellsSame (W.carried wiring.old) (W.carried wiring.new) }
    ensures asked { OnOk result (TellsMore (W.asked wiring.old) (W.asked wiring.new)
        (asks_to plans.now worker replicas)) }
{
    let mut channels = Vec::with_capacity(alloc, replicas as usize)?;
    for replica in 0..replicas {
        let line = wiring.line(worker, replica, plan_of(plans, worker, replica))?;
        channels.push(Channel::new(line))?;
    }
    Ok(channels)
}

/// Takes the worker's lines back, which stand in the order of their replicas. It takes no memory.
pub(crate) fn take_back<W: Wiring>(wiring: &mut W, channels: Vec<Channel<W::L>>)
    ensures counts { (worker : ℕ) → AreLinesOf worker 0 (map (λ c. W.L.ends c.line) channels.items)
        → RecordsOf (W.counts wiring.old) (W.counts wiring.new) worker
        (map (λ c. W.L.count c.line) channels.items) }
    ensures carried { (worker : ℕ) → AreLinesOf worker 0 (map (λ c. W.L.ends c.line) channels.items)
        → RecordsOf (W.carried wiring.old) (W.carried wiring.new) worker
        (map (λ c. W.L.carried c.line) channels.items) }
    ensures asked { W.asked wiring.new ≡ W.asked wiring.old }
{
    for channel in channels {
        wiring.take_back(channel.line);
    }
}
