//! The worker of a rank gives a future, and the main runs the task that needs it; then all lanes are closed.
ghost use Rattle.std.specs.Prelude.{◌≡◌, ◌≤◌, true, [], ◌∷◌, length, IfOk, IfSome};
ghost use Rattle.app_core.specs.declared.Effect.TheVariants.{Give};
ghost use Rattle.event_lists.specs.Events.{main_of};
ghost use Rattle.world_words.specs.Lanes.{LaneView};
ghost use Rattle.world_words.specs.Closing.{IsFree};
ghost use Rattle.lane_tests.specs.Pairs.{IsNew};
ghost use Rattle.lane_tests.specs.Loans.{program, sum_lent, needs_of, step_of};
ghost use Rattle.lane_tests.specs.Lending.{worker, HasLender, HasBorrower, HasOffered, HasAsked, KnowsGiven};

use crate::lending::{ask, borrow, lend, offer};
use crate::loans::{Loan, Loans};
use app_core::{App, Effects, Inputs};
use event_books::{Book, LanePart};
use event_core::EventList;
use event_lists::LaneName;
use std::alloc::{AllocError, Global};
use std::test::Fail;
use std::thread::{Threads, join};
use world_words::{Carrier, Lane, Lanes, RankLanes, Told, Track, Words};

const MAIN: LaneName = LaneName {
    rank: 0,
    bin: false,
    number: 0,
};

const WORKER: LaneName = LaneName {
    rank: 0,
    bin: false,
    number: 1,
};

// In two threads: the main submits the unit that needs the future, while the worker runs the unit that gives it. Then the
// main learns what the worker told, and runs its unit.
fn lend_and_borrow<R: Threads + Sync>(
    rt: &R,
    words: &Words<Loans>,
    mut main: Lane,
    mut lane: Lane,
    gives: &Effects<Loan, u64, u32>,
    nothing: &Effects<Loan, u64, u32>,
) -> (Lane, Lane)
    requires program { words.now.program ≡ program }
    requires main { IsNew words.now 0 4 main × (main.seen ≡ []) }
    requires lane { IsFree words.now lane × (lane.mine ≡ []) × (lane.name ≡ worker) × (3 ≤ lane.spare) }
    requires gives { gives.now ≡ Give sum_lent 7 ∷ [] }
    requires nothing { nothing.now ≡ [] }
    ensures main { IsFree words.now result.0 × (result.0.name ≡ main_of 0) }
    ensures lane { IsFree words.now result.1 × (result.1.name ≡ worker) }
{
    let lender = offer(words, &mut main);
    let (first, second) = join(
        rt,
        move || -> (Lane, Carrier)
            requires { (words.now.program ≡ program) × HasOffered words.now main }
            ensures { HasAsked words.entry.now result.0 × HasBorrower words.entry.now result.1 }
        {
            let borrower = ask(words, &mut main);
            (main, borrower)
        },
        move || -> (Lane, Told)
            requires { IsFree words.now lane × (lane.mine ≡ []) × (lane.name ≡ worker) × (3 ≤ lane.spare) × HasLender words.now lender × (gives.now ≡ Give sum_lent 7 ∷ []) }
            ensures { IsFree words.entry.now result.0 × (result.0.name ≡ worker) × KnowsGiven words.entry.now result.1 }
        {
            let told = lend(words, &mut lane, lender, gives);
            (lane, told)
        },
    );
    let (mut main, borrower) = first;
    let (lane, told) = second;
    borrow(words, &mut main, borrower, told, nothing);
    (main, lane)
}

// The two lanes of the only row.
fn pop_pair(mut rows: Vec<RankLanes>) -> Option<(Lane, Lane)>
    ensures { (a b : LaneView) → rows.items ≡ (a ∷ b ∷ []) ∷ [] → IfSome result (λ r. (r.0 ≡ a) × (r.1 ≡ b)) }
{
    let mut row = rows.pop()?.into_vec();
    let second = row.pop()?;
    let first = row.pop()?;
    Some((first, second))
}

// A row of two lanes.
fn row_of(alloc: Global, first: Lane, second: Lane) -> Result<Vec<RankLanes>, AllocError>
    ensures { IfOk result (λ rows. rows.items ≡ (first ∷ second ∷ []) ∷ []) }
{
    let row = RankLanes::new(vec![in alloc; first, second]?);
    Ok(vec![in alloc; row]?)
}

// The effects of a unit that gets these values, as the application has them.
fn effects_of(alloc: Global, unit: Loan, values: Vec<u64>) -> Result<Effects<Loan, u64, u32>, Fail>
    requires values { length values.items ≡ length (needs_of unit) }
    ensures { IfOk result (λ e. e ≡ step_of unit) }
{
    let inputs = Inputs::new(values, Vec::new(alloc), 0);
    Ok(Loans.step(alloc, unit, inputs)?)
}

// All lanes of a rank whose worker gives what the main needs are closed.
fn closed<R: Threads + Sync>(
    alloc: Global,
    rt: &R,
    trace: bool,
) -> Result<(Track<Loans>, Book), Fail>
    ensures book { IfOk result (λ r. trace ≡ true → r.1 ≡ r.0) }
{
    let gives = effects_of(alloc, Loan::Lender, Vec::new(alloc))?;
    let nothing = effects_of(alloc, Loan::Borrower, vec![in alloc; 7]?)?;
    let (words, lanes) = Words::new(alloc, &Loans, 1, 1, trace)?;
    let Lanes { hands, bins, root } = lanes;
    let Some((mut main, mut lane)) = pop_pair(hands) else {
        return Err(Fail::from("two lanes"));
    };
    words.reserve(&mut main, 4)?;
    words.reserve(&mut lane, 3)?;
    let (main, lane) = lend_and_borrow(rt, &words, main, lane, &gives, &nothing);
    let hands = row_of(alloc, main, lane)?;
    Ok(words.close(Lanes { hands, bins, root }))
}

// Adds some events of a part, by their indices, where each is accepted.
fn add_events(list: &mut EventList, part: &LanePart, from: usize, to: usize) -> Result<bool, Fail>
    requires { to ≤ length part.now.events }
{
    for index in from..to {
        if !list.add(part.lane(), &part.event_at(index))? {
            return Ok(false);
        }
    }
    Ok(true)
}

#[test]
fn the_book_of_a_future_that_is_lent_is_accepted(rt: HostRuntime) -> Result<(), Fail> {
    let (track, book) = closed(rt.alloc(), &rt, true)?;
    track.is_lawful();
    let mut list = EventList::new(rt.alloc(), book.ranks(), book.workers())?;
    let [main, lane] = book.parts() else {
        return Err(Fail::from("two parts"));
    };
    assert_eq!(rt; (main.lane(), lane.lane()), (MAIN, WORKER));
    if main.len() != 4 || lane.len() != 3 {
        return Err(Fail::from("seven events"));
    }
    // Both units are submitted before the worker takes the first, and the main takes the second after that.
    assert!(rt; add_events(&mut list, main, 0, 2)?);
    assert!(rt; add_events(&mut list, lane, 0, 3)?);
    assert!(rt; add_events(&mut list, main, 2, 4)?);
    assert_eq!(rt; list.marks().len(), 7);
    Ok(())
}

#[test]
fn without_a_trace_the_book_of_a_loan_is_empty(rt: HostRuntime) -> Result<(), Fail> {
    let (track, book) = closed(rt.alloc(), &rt, false)?;
    track.is_lawful();
    assert_eq!(rt;
        (book.ranks(), book.workers(), book.parts().len()),
        (1, 1, 0)
    );
    Ok(())
}
