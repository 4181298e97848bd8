//! Two lanes exchange a unit and its task, with a trace and without, and all lanes are closed.
ghost use Rattle.std.specs.Prelude.{◌≡◌, true, None, [], ◌∷◌, IfOk, IfSome};
ghost use Rattle.app_core.specs.declared.outline.Outline.TheVariants.{Spawn};
ghost use Rattle.event_lists.specs.Events.{main_of};
ghost use Rattle.event_laws.specs.Follows.{Start, Wait};
ghost use Rattle.world_words.specs.Lanes.{LaneView};
ghost use Rattle.world_words.specs.Closing.{IsFree};
ghost use Rattle.lane_tests.specs.Pairs.{IsNew};

use app_core::{Facts, Label};
use event_books::Book;
use event_core::EventList;
use event_lists::LaneName;
use std::alloc::{AllocError, Global};
use std::test::Fail;
use std::thread::Threads;
use world_words::examples::{meet, serve, start};
use world_words::{Lane, Lanes, RankLanes, Track, Words};

// An application with one command, whose only start is a unit at rank 1 without effects.
struct Pair;

impl Facts for Pair {
    ghost use Rattle.std.specs.Prelude.{◌≡◌, ℕ, None, [], ◌∷◌};
    ghost use Rattle.app_core.specs.declared.outline.Outline.TheVariants.{Spawn};
    ghost use Rattle.app_core.specs.declared.outline.CommandKind.TheVariants.{Work};

    ghost ranks_of = { λ _. 2 };

    ghost kinds_of = { λ _. Work ∷ [] };

    ghost starts_of = { λ _ _. Spawn (record { command = 1; part = 0; place = 0 }) None [] 1 ∷ [] };

    ghost may_do = { λ _ _ os. os ≡ [] };

    ghost may_read = { λ _ _ _. Unit {0} };

    ghost may_count = { λ _ _ _. Unit {0} };

    ghost right_size = { λ _ _ _ _. Unit {0} };

    ghost future_home_of = { λ _ _. 0 };

    ghost entry_home_of = { λ _ _. 0 };

    ghost dropped_of = { λ _ _. [] };
}

const UNIT: Label = Label {
    command: 1,
    part: 0,
    place: 0,
};

const FIRST: LaneName = LaneName {
    rank: 0,
    bin: false,
    number: 0,
};

const SECOND: LaneName = LaneName {
    rank: 1,
    bin: false,
    number: 0,
};

// Two mains exchange a unit and its task, and meet in two threads.
fn exchange<R: Threads + Sync>(
    rt: &R,
    words: &Words<Pair>,
    mut one: Lane,
    mut two: Lane,
) -> (Lane, Lane)
    requires ranks { words.now.ranks ≡ 2 }
    requires program { words.now.program ≡ Start (Spawn (record { command = 1; part = 0; place = 0 }) None [] 1) ∷ Wait ∷ [] }
    requires one { IsNew words.now 0 1 one }
    requires two { IsNew words.now 1 3 two }
    ensures one { IsFree words.now result.0 × (result.0.name ≡ main_of 0) }
    ensures two { IsFree words.now result.1 × (result.1.name ≡ main_of 1) }
{
    let carrier = start(words, &mut one, 1, UNIT);
    let _task = serve(words, &mut two, carrier, UNIT);
    meet(rt, words, one, two)
}

// The lanes of two rows of one lane each.
fn pop_both(mut rows: Vec<RankLanes>) -> Option<(Lane, Lane)>
    ensures { (a b : LaneView) → rows.items ≡ (a ∷ []) ∷ (b ∷ []) ∷ [] → IfSome result (λ r. (r.0 ≡ a) × (r.1 ≡ b)) }
{
    let two = rows.pop()?.into_vec().pop()?;
    let one = rows.pop()?.into_vec().pop()?;
    Some((one, two))
}

// A row for each of two lanes.
fn rows_of(alloc: Global, one: Lane, two: Lane) -> Result<Vec<RankLanes>, AllocError>
    ensures { IfOk result (λ rows. rows.items ≡ (one ∷ []) ∷ (two ∷ []) ∷ []) }
{
    let first = RankLanes::new(vec![in alloc; one]?);
    let second = RankLanes::new(vec![in alloc; two]?);
    Ok(vec![in alloc; first, second]?)
}

// All lanes of two ranks, of which the mains exchange a unit and its task, are closed.
fn closed<R: Threads + Sync>(
    alloc: Global,
    rt: &R,
    trace: bool,
) -> Result<(Track<Pair>, Book), Fail>
    ensures book { IfOk result (λ r. trace ≡ true → r.1 ≡ r.0) }
{
    let (words, lanes) = Words::new(alloc, &Pair, 2, 0, trace)?;
    let Lanes { hands, bins, root } = lanes;
    let Some((mut one, mut two)) = pop_both(hands) else {
        return Err(Fail::from("two lanes"));
    };
    words.reserve(&mut one, 1)?;
    words.reserve(&mut two, 3)?;
    let (one, two) = exchange(rt, &words, one, two);
    let hands = rows_of(alloc, one, two)?;
    Ok(words.close(Lanes { hands, bins, root }))
}

#[test]
fn what_lanes_kept_is_a_book_that_is_accepted(rt: HostRuntime) -> Result<(), Fail> {
    let (track, book) = closed(rt.alloc(), &rt, true)?;
    track.is_lawful();
    let mut list = EventList::new(rt.alloc(), book.ranks(), book.workers())?;
    let mut lengths = Vec::new(rt.alloc());
    for part in book.parts() {
        lengths.push((part.lane(), part.len()))?;
        for index in 0..part.len() {
            assert_eq!(rt; list.add(part.lane(), &part.event_at(index))?, true);
        }
    }
    assert!(rt; lengths.as_slice() == [(FIRST, 1), (SECOND, 3)].as_slice());
    assert_eq!(rt; list.marks().len(), 4);
    Ok(())
}

#[test]
fn without_a_trace_the_book_is_empty(rt: HostRuntime) -> Result<(), Fail> {
    let (track, book) = closed(rt.alloc(), &rt, false)?;
    track.is_lawful();
    assert_eq!(rt;
        (book.ranks(), book.workers(), book.parts().len()),
        (2, 0, 0)
    );
    Ok(())
}
