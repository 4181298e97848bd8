//! The main of a rank and its worker: the worker runs the unit that gives a future, and the main learns it and runs the unit
//! that needs the future.
ghost use Rattle.std.specs.Prelude.{◌≡◌, ◌≤◌, ◌∷◌, []};
ghost use Rattle.app_core.specs.declared.Effect.TheVariants.{Give};
ghost use Rattle.event_lists.specs.Events.{main_of};
ghost use Rattle.world_words.specs.Closing.{IsFree};
ghost use Rattle.lane_tests.specs.Pairs.{IsNew};
ghost use Rattle.lane_tests.specs.Loans.{program, sum_lent};
ghost use Rattle.lane_tests.specs.Lending.{worker, HasLender, HasBorrower, HasOffered, HasAsked, KnowsGiven};

use crate::loans::{BORROWER, LENDER, Loan, Loans, SUM_LENT};
use app_core::Effects;
use world_words::{Carrier, Lane, Told, Words};

/// The main submits the unit that gives the future.
pub fn offer(words: &Words<Loans>, main: &mut Lane) -> Carrier
    requires program { words.now.program ≡ program }
    requires new { IsNew words.now 0 4 main.old × (main.old.seen ≡ []) }
    ensures main { HasOffered words.now main.new }
    ensures carrier { HasLender words.now result }
{
    words.submitted(main, LENDER, &[], Some(SUM_LENT));
    words.pack(main)
}

/// The main submits the unit that needs the future.
pub fn ask(words: &Words<Loans>, main: &mut Lane) -> Carrier
    requires program { words.now.program ≡ program }
    requires main { HasOffered words.now main.old }
    ensures main { HasAsked words.now main.new }
    ensures carrier { HasBorrower words.now result }
{
    words.submitted(main, BORROWER, &[SUM_LENT], None);
    words.pack(main)
}

/// The worker runs the unit that gives the future, and tells what it knows.
pub fn lend(
    words: &Words<Loans>,
    lane: &mut Lane,
    carrier: Carrier,
    effects: &Effects<Loan, u64, u32>,
) -> Told
    requires free { IsFree words.now lane.old × (lane.old.mine ≡ []) × (lane.old.name ≡ worker) × (3 ≤ lane.old.spare) }
    requires carrier { HasLender words.now carrier }
    requires effects { effects.now ≡ Give sum_lent 7 ∷ [] }
    ensures free { IsFree words.now lane.new × (lane.new.name ≡ worker) }
    ensures told { KnowsGiven words.now result }
{
    words.take_in(lane, carrier);
    words.begin(lane, effects);
    words.gave(lane, SUM_LENT);
    words.ran(lane);
    words.tell(lane)
}

/// The main learns that the future has its value, and runs the unit that needs it.
pub fn borrow(
    words: &Words<Loans>,
    main: &mut Lane,
    carrier: Carrier,
    told: Told,
    effects: &Effects<Loan, u64, u32>,
)
    requires main { HasAsked words.now main.old }
    requires carrier { HasBorrower words.now carrier }
    requires told { KnowsGiven words.now told }
    requires effects { effects.now ≡ [] }
    ensures free { IsFree words.now main.new × (main.new.name ≡ main_of 0) }
{
    words.learn(main, told);
    words.take_in(main, carrier);
    words.begin(main, effects);
    words.ran(main);
}
