//! Laws about how legal lists grow: what is made and taken once, what lasts, and what a lane's own part decides. Each
//! function's contract is a law, and its body is empty.
ghost use Rattle.event_lists.specs.LastingLaws.{ItemsAreMadeOnce, WhatIsMadeIsNew, WhatIsTakenWaits, HandsAreTaken, ItemsAreTakenOnce, TakenItemsHaveTakers, TakersAreOne, NumbersAreBelowCounts, NumbersNameEvents, CountsAreBelowLengths, CountsAreBounded, EventsLast, MessagesLast, SubmissionsLast, TakesLast, GivesLast, CountsLast, ReceiptsLast, DuesOfItemsLast, NeedsOfItemsLast, RowsLast, PassesLast, SentSumsLast, HandledSumsLast, DuesAreOwn, NeedsAreOwn, NeedsAndDuesAreOwn, ReceiptsAreOwn, ReceiptsAreFound, ReceiptsAreInOrder, ReceiptsAreOne, DuesLast, FencesLast, ReadingsLast, EachSeesItsOwn, HandsAllow, MakersSpawn, ReadingsAreNext, ReadingsAreEvents};

/// A message or task is made at most once: what an event makes was neither made nor taken before.
pub fn items_are_made_once()
    ensures once { ItemsAreMadeOnce }
    ensures new { WhatIsMadeIsNew }
{}

/// A message or task is taken at most once, on one lane. What an event may take was made and not taken; what a lane has
/// in hand was made, and taken on this lane.
pub fn items_are_taken_once()
    ensures once { ItemsAreTakenOnce }
    ensures some_taker { TakenItemsHaveTakers }
    ensures one_taker { TakersAreOne }
    ensures waits { WhatIsTakenWaits }
    ensures hands { HandsAreTaken }
{}

/// A counted event has a number below the count of its kind, and no other event of its rank has its kind and number.
pub fn numbers_are_below_counts()
    ensures below { NumbersAreBelowCounts }
    ensures name { NumbersNameEvents }
{}

/// A count is at most the sum of the lengths of the lanes of the rank's hands.
pub fn counts_are_below_lengths()
    ensures sum { CountsAreBelowLengths }
    ensures bound { CountsAreBounded }
{}

/// What was done in a beginning of a list was done in the list: each event of it is in the list on the same lane, with
/// the same numbers, and so is what was sent, submitted, taken, given, counted and received.
pub fn events_last()
    ensures events { EventsLast }
    ensures messages { MessagesLast }
    ensures submissions { SubmissionsLast }
    ensures takes { TakesLast }
    ensures gives { GivesLast }
    ensures counts { CountsLast }
    ensures receipts { ReceiptsLast }
{}

/// What was made in a beginning of a legal list has the same due and the same needs in the list.
pub fn dues_and_needs_of_items_last()
    ensures dues { DuesOfItemsLast }
    ensures needs { NeedsOfItemsLast }
{}

/// A pass that a rank completed keeps its row; a pass that is complete at every rank stays so, with its two sums.
pub fn rows_last()
    ensures rows { RowsLast }
    ensures passes { PassesLast }
    ensures sent { SentSumsLast }
    ensures handled { HandledSumsLast }
{}

/// The spawns of the task in hand, or of a main with nothing in hand, are on its own lane: so the lane's own events
/// tell with which dues and needs it spawned.
pub fn spawns_are_own()
    ensures dues { DuesAreOwn }
    ensures needs { NeedsAreOwn }
    ensures needs_and_dues { NeedsAndDuesAreOwn }
{}

/// Receipts are on the lane of rank 0's main alone, one for each fence, in the order of the fences.
pub fn receipts_are_own()
    ensures lane { ReceiptsAreOwn }
    ensures found { ReceiptsAreFound }
    ensures order { ReceiptsAreInOrder }
    ensures one { ReceiptsAreOne }
{}

/// What an event asks of dues and of fences holds of the whole list where it holds of a beginning of it that has all of
/// the lane's own events.
pub fn conditions_last()
    ensures dues { DuesLast }
    ensures fences { FencesLast }
    ensures readings { ReadingsLast }
{}

/// An event that came has met what it asks of its lane alone: what the lane had in hand allowed it, a lane that spawned
/// did so for its bringer, and a reading was the next.
pub fn conditions_were_met()
    ensures sees { EachSeesItsOwn }
    ensures hands { HandsAllow }
    ensures spawners { MakersSpawn }
    ensures next { ReadingsAreNext }
    ensures readings { ReadingsAreEvents }
{}
