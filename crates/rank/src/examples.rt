//! Computed examples, as contracts.
ghost use Rattle.std.specs.Prelude.{◌≡◌, ◌%◌, Some, true, false};
ghost use Rattle.rank.specs.Examples.{third};
ghost use Rattle.rank.specs.Runs.{IsKeptAt, IsRightResult};
ghost use Rattle.rank.specs.Walks.{IsWalk};

use crate::hand::Hand;
use crate::share::RankShare;
use crate::signals::Signals;
use app_core::{App, Naming};
use mailbox::{Inbox, Mail};

/// Where the futures of even places are kept at rank 0 and others at rank 1, and the right value of each is its place.
fn results_are_of_one_rank_and_right()
    ensures kept { IsKeptAt (λ future. future.place % 2) 1 (Some third) }
    ensures elsewhere { IsKeptAt (λ future. future.place % 2) 0 (Some third) → ⊥ }
    ensures right { IsRightResult (λ future value. value ≡ future.place) (Some third) 3 }
    ensures wrong { IsRightResult (λ future value. value ≡ future.place) (Some third) 4 → ⊥ }
{}

/// A main of five commands that has seen three results; one that has seen results of commands it hasn't come to; and one
/// that is complete before the last command.
fn walks_are_judged()
    ensures on_its_way { IsWalk 5 (record { commands = 4; results = 3; complete = false }) }
    ensures at_its_end { IsWalk 5 (record { commands = 5; results = 5; complete = true }) }
    ensures too_far { IsWalk 5 (record { commands = 6; results = 3; complete = false }) → ⊥ }
    ensures unseen { IsWalk 5 (record { commands = 2; results = 3; complete = false }) → ⊥ }
    ensures early { IsWalk 5 (record { commands = 4; results = 4; complete = true }) → ⊥ }
{}

/// What a thread of a hand's own needs: the hand moves there, and what it shares with others is reached from all threads.
fn hands_may_cross_threads<A: App, J: Naming<A> + Send + Sync>(
    hand: &Hand<'_, A, J>,
    share: &RankShare<'_, A, J>,
    inbox: &Inbox<Mail<A, J>>,
    signals: &Signals,
) {
    may_move(hand);
    may_be_shared(share);
    may_be_shared(inbox);
    may_be_shared(signals);
}

fn may_move<T: Send>(_: &T) {}

fn may_be_shared<T: Sync>(_: &T) {}
