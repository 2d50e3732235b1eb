//! What carries the calls of a stream: the steps of its core, and a line to each replica.

use crate::channel::Channel;
use outer_traits::Line;
use std::marker::Model;
use stream_steps::ClientSteps;

/// Carries a call by its methods. What its lines show, they show while a call is open too.
#[derive(Drop)]
pub(crate) struct Carrier<C: ClientSteps + Drop, L: Line + Drop> {
    pub(crate) steps: C,
    pub(crate) channels: Vec<Channel<L>>,
}

impl<C: ClientSteps + Drop, L: Line + Drop> Model for Carrier<C, L> {
    ghost use Rattle.client_worker.specs.Working.{Work, IsServing};

    ghost Value = { Work C L };

    ghost view = { λ w. record { steps = w.steps; channels = w.channels.items } };

    ghost invariant = { λ w. IsServing C.ready C.mine L.count L.carried
        (record { steps = w.steps; channels = w.channels.items }) };
}
