//! The rule of a desk's table, and what each step on it tells. These types are for proofs alone.
ghost use Rattle.desk_lock.specs.declared.views.View.TheVariants.{Spent};
ghost use Rattle.desk_lock.specs.Rule.{Ruled, starting, drew, looked, compared, passed, published, ended};
ghost use Rattle.desk_lock.specs.Rule.{learned, recalled, first_after, newcomer, both_of};

use crate::kept::Kept;
use crate::views::{Start, View};
use atomic_table::{Join, Play, Split, TableRule};

pub struct InTurn;

impl<S: Kept> TableRule<Option<S>, View<S>, Start<S>> for InTurn {
    ghost holds = { λ _. Ruled S.account };

    ghost first = { λ start. starting start.state.value };
}

/// A ticket is drawn, where none was drawn since the word was seen.
pub struct Draw;

impl<S: Kept> Play<Option<S>, View<S>> for Draw {
    ghost then = { drew };
}

/// A look at whose turn it is. Where it is the seat's, the state is taken.
pub struct Look;

impl<S: Kept> Play<Option<S>, View<S>> for Look {
    ghost then = { looked S.account };
}

/// A look at the published length by who has the state.
pub struct Compare;

impl<S: Kept> Play<Option<S>, View<S>> for Compare {
    ghost then = { compared S.account };
}

/// The state is put back, and the length of its journal published.
pub struct Publish;

impl<S: Kept> Play<Option<S>, View<S>> for Publish {
    ghost then = { published };
}

/// The turn is passed on, once the state is back.
pub struct End;

impl<S: Kept> Play<Option<S>, View<S>> for End {
    ghost then = { ended };
}

/// The state is put back, and the turn passed on.
pub struct PassOn;

impl<S: Kept> Play<Option<S>, View<S>> for PassOn {
    ghost then = { passed };
}

/// A look at the published length by a seat, which is told it.
pub struct Learn;

impl<S: Kept> Play<Option<S>, View<S>> for Learn {
    ghost then = { learned S.account };
}

/// The first seat is told again what it knew of the numbers not yet given.
pub struct Recall;

impl<S: Kept> Play<Option<S>, View<S>> for Recall {
    ghost then = { recalled S.account };
}

/// A seat is split off the first.
pub struct Cut;

impl<S> Split<View<S>> for Cut {
    ghost left = { first_after };

    ghost right = { newcomer };
}

/// A seat is joined into the first.
pub struct Glue;

impl<S> Join<View<S>> for Glue {
    ghost both = { both_of };

    ghost spent = { Spent };
}
