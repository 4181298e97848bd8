//! Laws about how lists that follow grow, and what a main's program tells of them: each function's contract is a law, and
//! its body is empty.
ghost use Rattle.event_laws.specs.Growth.{MoreTasksMayBegin, OneMoreFollows, CarriedIsBegun};
ghost use Rattle.event_laws.specs.Mains.{MainsDuesAreStarts, MainsNeedsAreStarts};

use app_core::Facts;

/// A list that follows does so where one more event goes on from it, and where more tasks were begun. An effect that was
/// carried out is one of a begun task.
pub fn lists_that_follow_grow<A: Facts>()
    ensures event { (app : A) → OneMoreFollows (A.may_do app) }
    ensures tasks { MoreTasksMayBegin }
    ensures begun { CarriedIsBegun }
{}

/// A main spawned with just the dues, and the needs, of the starts of its program that it has done.
pub fn mains_spawn_their_starts()
    ensures dues { MainsDuesAreStarts }
    ensures needs { MainsNeedsAreStarts }
{}
