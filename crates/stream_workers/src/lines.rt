//! The lines of one stream's worker, each of them wrapped.

ghost use Rattle.std.specs.Prelude.{◌≡◌, ℕ, map, IfOk, OnOk};
ghost use Rattle.outer_traits.specs.Lines.{AreLinesOf, RecordsOf, TellsMore};
ghost use Rattle.stream_turns.specs.Turn.{AreNewLines};
ghost use Rattle.stream_turns.specs.Volume.{asks_to};

use crate::gated::Wrapping;
use client_worker::Channel;
use outer_traits::{Ends, Wiring};
use script_text::{LinePlan, plan_of};
use std::alloc::{AllocError, Global};

/// The worker's lines to the replicas, in their order. Each fails as the script plans it.
pub(crate) fn wrapped_channels<W: Wiring, V: Wrapping<W>>(
    alloc: Global,
    plans: &[LinePlan],
    worker: u8,
    replicas: u8,
    wiring: &mut W,
    wrapping: &V,
) -> Result<Vec<Channel<V::Wrapped>>, AllocError>
    ensures new { IfOk result (λ channels. AreNewLines worker replicas
        (map (λ c. V.Wrapped.ends c.line) channels.items) (map (λ c. V.Wrapped.count c.line) channels.items)
        (map (λ c. V.Wrapped.carried c.line) channels.items)) }
    ensures asked { OnOk result (TellsMore (W.asked wiring.old) (W.asked wiring.new)
        (asks_to plans.now worker replicas)) }
{
    let mut channels = Vec::with_capacity(alloc, replicas as usize)?;
    for replica in 0..replicas {
        let line = wiring.line(worker, replica, plan_of(plans, worker, replica))?;
        let ends = Ends { worker, replica };
        channels.push(Channel::new(wrapping.wrap(line, ends)))?;
    }
    Ok(channels)
}

/// Gives the worker's lines back, which stand in the order of their replicas. It takes no memory.
pub(crate) fn give_lines_back<W: Wiring, V: Wrapping<W>>(
    wiring: &mut W,
    wrapping: &V,
    channels: Vec<Channel<V::Wrapped>>,
)
    ensures counts { (worker : ℕ) → AreLinesOf worker 0 (map (λ c. V.Wrapped.ends c.line) channels.items)
        → RecordsOf (W.counts wiring.old) (W.counts wiring.new) worker
        (map (λ c. V.Wrapped.count c.line) channels.items) }
    ensures carried { (worker : ℕ) → AreLinesOf worker 0 (map (λ c. V.Wrapped.ends c.line) channels.items)
        → RecordsOf (W.carried wiring.old) (W.carried wiring.new) worker
        (map (λ c. V.Wrapped.carried c.line) channels.items) }
    ensures asked { W.asked wiring.new ≡ W.asked wiring.old }
{
    for channel in channels {
        wiring.take_back(wrapping.unwrap(channel.line));
    }
}
