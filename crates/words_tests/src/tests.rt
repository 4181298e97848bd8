//! Three ranks whose mains are turned by hand.
use crate::turns::{ThreeRows, pass_fence, three_mains};
use crate::visiting::visit_twice;
use crate::visits::Visits;
use app_core::{Effects, Facts};
use event_lists::Row;
use std::test::Fail;
use world_words::Words;

// An application without work: its mains go through two fences.
struct Idle;

impl Facts for Idle {
    ghost use Rattle.std.specs.Prelude.{[], ◌∷◌};
    ghost use Rattle.app_core.specs.declared.outline.CommandKind.TheVariants.{Fence};

    ghost ranks_of = { λ _. 3 };

    ghost kinds_of = { λ _. Fence ∷ [] };

    ghost starts_of = { λ _ _. [] };

    ghost may_do = { λ _ _ _. Unit {0} };

    ghost may_read = { λ _ _ _. Unit {0} };

    ghost may_count = { λ _ _ _. Unit {0} };

    ghost right_size = { λ _ _ _ _. Unit {0} };

    ghost future_home_of = { λ _ _. 0 };

    ghost entry_home_of = { λ _ _. 0 };

    ghost dropped_of = { λ _ _. [] };
}

const NOTHING: Row = Row {
    sent: 0,
    handled: 0,
    tasks: 0,
};

const QUIET: ThreeRows = ThreeRows {
    zero: NOTHING,
    one: NOTHING,
    two: NOTHING,
};

#[test]
fn three_mains_go_through_two_fences(rt: HostRuntime) -> Result<(), Fail> {
    let (words, mut root) = Words::with_root(rt.alloc(), &Idle, 3, 0, false)?;
    let (mut zero, mut one, mut two) = three_mains(&words, &mut root)?;
    let Some(first) = pass_fence(&words, &mut zero, &mut one, &mut two, 0) else {
        return Err(Fail::from("no receipt of the first fence"));
    };
    let Some(second) = pass_fence(&words, &mut zero, &mut one, &mut two, 1) else {
        return Err(Fail::from("no receipt of the second fence"));
    };
    assert_eq!(rt; (first, second), (QUIET, QUIET));
    // Eleven events at each fence on the main of rank 0, with its receipt, and ten on the others.
    assert_eq!(rt; (zero.spare(), one.spare(), two.spare()), (78, 80, 80));
    Ok(())
}

const COUNTED: ThreeRows = ThreeRows {
    zero: Row {
        sent: 2,
        handled: 0,
        tasks: 0,
    },
    one: Row {
        sent: 0,
        handled: 1,
        tasks: 1,
    },
    two: Row {
        sent: 0,
        handled: 1,
        tasks: 1,
    },
};

#[test]
fn attempts_are_opened_again_after_work(rt: HostRuntime) -> Result<(), Fail> {
    let (words, mut root) = Words::with_root(rt.alloc(), &Visits, 3, 0, false)?;
    let (mut zero, mut one, mut two) = three_mains(&words, &mut root)?;
    let effects = Effects::new(rt.alloc());
    let Some(rows) = visit_twice(&words, &mut zero, &mut one, &mut two, &effects) else {
        return Err(Fail::from("no receipt of a fence"));
    };
    assert_eq!(rt; rows, (COUNTED, COUNTED));
    // Two starts and eleven events at each fence on the main of rank 0. The others have three events of a message, two of a
    // task and three of the failed attempt at the first fence, and ten at each.
    assert_eq!(rt; (zero.spare(), one.spare(), two.spare()), (76, 72, 72));
    Ok(())
}
