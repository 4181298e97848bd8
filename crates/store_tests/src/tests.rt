//! Both tasks run over the lanes of two bins, with a trace and without, and all lanes are closed.
ghost use Rattle.std.specs.Prelude.{◌≡◌, ◌≤◌, true, List, [], ◌∷◌, length, IfOk, IfSome};
ghost use Rattle.world_words.specs.Lanes.{LaneView};

use crate::carrying::start_unit;
use crate::store::{FILL, FIRST, OLD, SECOND, StoreApp, StoreUnit};
use crate::turns::{fill, move_entries};
use app_core::{App, Inputs};
use event_books::{Book, LanePart};
use event_core::EventList;
use event_lists::{Event, LaneName};
use std::alloc::{AllocError, Global};
use std::test::Fail;
use world_words::{Lane, Lanes, RankLanes, Track, Words};

const MAIN: LaneName = LaneName {
    rank: 0,
    bin: false,
    number: 0,
};

// The lane of the only hand, and those of the only row of bins.
fn pop_all(mut hands: Vec<RankLanes>, mut bins: Vec<RankLanes>) -> Option<(Lane, Vec<Lane>)>
    ensures { (a : LaneView) (row : List LaneView) → hands.items ≡ (a ∷ []) ∷ [] → bins.items ≡ row ∷ [] → IfSome result (λ r. (r.0 ≡ a) × (r.1.items ≡ row)) }
{
    let hand = hands.pop()?.into_vec().pop()?;
    let row = bins.pop()?.into_vec();
    Some((hand, row))
}

// A row of these lanes.
fn row_of(alloc: Global, lanes: Vec<Lane>) -> Result<Vec<RankLanes>, AllocError>
    ensures { IfOk result (λ rows. rows.items ≡ lanes.items ∷ []) }
{
    let row = RankLanes::new(lanes);
    Ok(vec![in alloc; row]?)
}

// All lanes of a rank, whose main ran both tasks, are closed.
fn closed(alloc: Global, trace: bool) -> Result<(Track<StoreApp>, Book), Fail>
    ensures book { IfOk result (λ r. trace ≡ true → r.1 ≡ r.0) }
{
    let app = StoreApp;
    let fills = app.step(
        alloc,
        StoreUnit::Fill,
        Inputs::new(Vec::new(alloc), Vec::new(alloc), 0),
    )?;
    let moves = app.step(
        alloc,
        StoreUnit::Move,
        Inputs::new(Vec::new(alloc), Vec::new(alloc), 0),
    )?;
    let (words, lanes) = Words::new(alloc, &app, 1, 0, trace)?;
    let Lanes { hands, bins, root } = lanes;
    let Some((mut hand, mut row)) = pop_all(hands, bins) else {
        return Err(Fail::from("a hand and bins"));
    };
    let first = start_unit(&words, &mut hand, FILL)?;
    let second = fill(&words, &mut hand, &mut row, first, &fills)?;
    move_entries(&words, &mut hand, &mut row, second, &moves)?;
    let hands = row_of(alloc, vec![in alloc; hand]?)?;
    let bins = row_of(alloc, row)?;
    Ok(words.close(Lanes { hands, bins, root }))
}

fn bin(number: u32) -> LaneName {
    LaneName {
        rank: 0,
        bin: true,
        number,
    }
}

// Adds some events of a part, by their indices, where each is accepted.
fn add_events(list: &mut EventList, part: &LanePart, from: usize, to: usize) -> Result<bool, Fail>
    requires { to ≤ length part.now.events }
{
    for index in from..to {
        if !list.add(part.lane(), &part.event_at(index))? {
            return Ok(false);
        }
    }
    Ok(true)
}

#[test]
fn the_book_of_a_task_over_two_bins_is_accepted(rt: HostRuntime) -> Result<(), Fail> {
    let (track, book) = closed(rt.alloc(), true)?;
    track.is_lawful();
    let [main, one, two] = book.parts() else {
        return Err(Fail::from("three parts"));
    };
    assert_eq!(rt;
        (main.lane(), one.lane(), two.lane()),
        (MAIN, bin(1), bin(2))
    );
    if main.len() != 6 || one.len() != 3 || two.len() != 1 {
        return Err(Fail::from("ten events"));
    }
    assert_eq!(rt;
        (one.event_at(0), one.event_at(1)),
        (Event::Put(OLD), Event::Put(FIRST))
    );
    assert_eq!(rt;
        (one.event_at(2), two.event_at(0)),
        (Event::Erased(OLD), Event::Put(SECOND))
    );
    // Each task is submitted and taken before its puts and erases, and ran after them.
    let mut list = EventList::new(rt.alloc(), book.ranks(), book.workers())?;
    assert!(rt; add_events(&mut list, main, 0, 2)?);
    assert!(rt; add_events(&mut list, one, 0, 1)?);
    assert!(rt; add_events(&mut list, main, 2, 5)?);
    assert!(rt; add_events(&mut list, one, 1, 2)?);
    assert!(rt; add_events(&mut list, two, 0, 1)?);
    assert!(rt; add_events(&mut list, one, 2, 3)?);
    assert!(rt; add_events(&mut list, main, 5, 6)?);
    assert_eq!(rt; list.marks().len(), 10);
    Ok(())
}

#[test]
fn without_a_trace_the_book_is_empty(rt: HostRuntime) -> Result<(), Fail> {
    let (track, book) = closed(rt.alloc(), false)?;
    track.is_lawful();
    assert_eq!(rt;
        (book.ranks(), book.workers(), book.parts().len()),
        (1, 0, 0)
    );
    Ok(())
}
