//! How seats are split and joined. No event is appended.
use crate::steps::RunParameters;
use crate::view::View;
use atomic_table::{Join, Split};
use std::marker::PhantomData;

/// A new seat knows what the seat knows.
pub struct Telling;

impl Split<View> for Telling {
    ghost use Rattle.world_rule.specs.Views.{told_by};

    ghost left = { λ v. v };

    ghost right = { told_by };
}

/// A new seat has what the seat owed, and knows what the seat knows.
pub struct Packing;

impl Split<View> for Packing {
    ghost use Rattle.world_rule.specs.Views.{unburdened, packed_by};

    ghost left = { unburdened };

    ghost right = { packed_by };
}

/// A new seat has a lane of the seat.
pub struct Making<Q> {
    marker: PhantomData<Q>,
}

impl<Q: RunParameters> Split<View> for Making<Q> {
    ghost use Rattle.world_rule.specs.Views.{gives_away, lane_of};

    ghost left = { gives_away Q.lane };

    ghost right = { lane_of Q.lane };
}

/// The seat has what both had, and is told what the other knew.
pub struct Joining;

impl Join<View> for Joining {
    ghost use Rattle.world_rule.specs.Views.{joined, spent};

    ghost both = { joined };

    ghost spent = { spent };
}
