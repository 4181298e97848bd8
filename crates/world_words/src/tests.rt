//! Lanes of small runs, on one thread and on two.
use crate::Words;
use crate::examples::{meet, serve, start};
use app_core::{Facts, Label};
use event_lists::{Item, LaneName};
use std::test::Fail;

// An application with one command, whose only start is a unit at rank 1 without effects.
struct Pair;

impl Facts for Pair {
    ghost use Rattle.std.specs.Prelude.{◌≡◌, ℕ, None, [], ◌∷◌};
    ghost use Rattle.app_core.specs.declared.outline.Outline.TheVariants.{Spawn};
    ghost use Rattle.app_core.specs.declared.outline.CommandKind.TheVariants.{Work};

    ghost ranks_of = { λ _. 2 };

    ghost kinds_of = { λ _. Work ∷ [] };

    ghost starts_of = { λ _ _. Spawn (record { command = 1; part = 0; place = 0 }) None [] 1 ∷ [] };

    ghost may_do = { λ _ _ os. os ≡ [] };

    ghost may_read = { λ _ _ _. Unit {0} };

    ghost may_count = { λ _ _ _. Unit {0} };

    ghost right_size = { λ _ _ _ _. Unit {0} };

    ghost future_home_of = { λ _ _. 0 };

    ghost entry_home_of = { λ _ _. 0 };

    ghost dropped_of = { λ _ _. [] };
}

const UNIT: Label = Label {
    command: 1,
    part: 0,
    place: 0,
};

const FIRST: LaneName = LaneName {
    rank: 0,
    bin: false,
    number: 0,
};

const SECOND: LaneName = LaneName {
    rank: 1,
    bin: false,
    number: 0,
};

#[test]
fn a_unit_goes_to_another_rank(rt: HostRuntime) -> Result<(), Fail> {
    let (words, mut root) = Words::with_root(rt.alloc(), &Pair, 2, 0, true)?;
    let mut one = words.lane(&mut root, FIRST);
    let mut two = words.lane(&mut root, SECOND);
    words.reserve(&mut one, 1)?;
    words.reserve(&mut two, 3)?;
    let carrier = start(&words, &mut one, 1, UNIT);
    assert_eq!(rt; carrier.item, Some(Item::Message { rank: 0, number: 0 }));
    let task = serve(&words, &mut two, carrier, UNIT);
    assert_eq!(rt; task.item, Some(Item::Task { rank: 1, number: 0 }));
    assert_eq!(rt; (one.spare(), two.spare()), (0, 0));
    let (one, two) = meet(&rt, &words, one, two);
    let Some(trace) = words.fold(&mut root, one) else {
        return Err(Fail::from("no trace"));
    };
    assert_eq!(rt; trace.len(), 1);
    assert!(rt; words.fold(&mut root, two).is_some());
    Ok(())
}

#[test]
fn the_stop_word_is_set_for_all_and_changes_no_count(rt: HostRuntime) -> Result<(), Fail> {
    let (words, mut root) = Words::with_root(rt.alloc(), &Pair, 2, 0, false)?;
    let mut one = words.lane(&mut root, FIRST);
    let mut two = words.lane(&mut root, SECOND);
    assert!(rt; !words.is_stopped(&mut one) && !words.is_stopped(&mut two));
    words.stop(&mut one);
    assert!(rt; words.is_stopped(&mut one) && words.is_stopped(&mut two));
    assert_eq!(rt;
        (words.look_ran(&mut one), words.look_submitted(&mut two)),
        (0, 0)
    );
    Ok(())
}

#[test]
fn room_is_made_and_kept(rt: HostRuntime) -> Result<(), Fail> {
    let (words, mut root) = Words::with_root(rt.alloc(), &Pair, 2, 0, true)?;
    let mut one = words.lane(&mut root, FIRST);
    assert_eq!(rt; one.spare(), 0);
    words.reserve(&mut one, 5)?;
    words.reserve(&mut one, 3)?;
    assert_eq!(rt; one.spare(), 5);
    Ok(())
}
