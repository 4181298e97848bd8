//! The small application, called through its bound and compared with what was computed by hand.
ghost use Rattle.std.specs.Prelude.{◌≡◌, ◌<◌, length, IfOk};
ghost use Rattle.app_core.specs.Commands.{IsCommand, IsRankCount};

use super::*;
use app_core::{App, CellName, CommandKind, Effects, Inputs, Label, LentEffect, OutOfMemory, laws};
use std::alloc::Global;
use std::test::Fail;

const fn app(ranks: u32) -> SmallApp
    requires { IsRankCount ranks }
{
    SmallApp { ranks }
}

const fn future(command: u32, place: u64) -> Label {
    Label {
        command,
        part: 0,
        place,
    }
}

const fn entry(place: u64) -> CellName {
    CellName { version: 1, place }
}

const GUESS: Unit = Unit::Guessed(GuessUnit::Guess);

const EARLY: Unit = Unit::Guessed(GuessUnit::Early);

const LATE: Unit = Unit::Guessed(GuessUnit::Late);

// What is told of a unit.
fn told<A: App>(
    app: &A,
    unit: &A::Unit,
    ranks: u32,
) -> (Label, Option<Label>, u32, Option<CellName>, Option<u32>)
    requires { IsRankCount ranks }
{
    (
        app.label(unit),
        app.due(unit),
        app.home(unit, ranks),
        app.reads(unit, 0),
        app.counts(unit),
    )
}

// What is told of a command.
fn command<A: App>(app: &A, number: u32) -> (CommandKind, Option<Label>)
    requires { IsCommand (A.kinds_of app.now) number }
{
    (app.kind(number), app.result(number))
}

// The step of a unit.
fn step<A: App>(
    app: &A,
    alloc: Global,
    unit: A::Unit,
    inputs: Inputs<A::Value, A::Cell>,
) -> Result<Effects<A::Unit, A::Value, A::Cell>, OutOfMemory>
    requires unit { A.is_unit app.now unit }
    requires values { length inputs.values ≡ length (A.needs_of app.now unit) }
    requires cells { length inputs.cells ≡ length (A.reads_of app.now unit) }
{
    app.step(alloc, unit, inputs)
}

#[test]
fn commands_are_three_of_work_with_fences_between(rt: HostRuntime) {
    let app = app(4);
    assert_eq!(rt; App::commands(&app), 5);
    let first = (CommandKind::Work, Some(future(1, 1)));
    let second = (CommandKind::Work, Some(future(3, 1)));
    let last = (CommandKind::Work, Some(future(5, 1)));
    assert!(rt; command(&app, 1) == first && command(&app, 3) == second);
    assert!(rt; command(&app, 5) == last);
    assert!(rt; command(&app, 2) == (CommandKind::Fence, None));
    assert!(rt; command(&app, 4) == (CommandKind::Fence, None));
    assert!(rt;
        app.dropped(2, 0) == Some(1) && app.dropped(2, 1).is_none() && app.dropped(1, 0).is_none()
    );
}

#[test]
fn units_have_their_names_and_ranks(rt: HostRuntime) {
    let app = app(4);
    let leaf = |right: bool| Unit::Leaf {
        right,
        value: if right { 7 } else { 5 },
    };
    let cases = [
        (Unit::Fill, 0, 1, Some(future(1, 1)), [0, 0, 0]),
        (leaf(false), 0, 2, Some(future(1, 2)), [0, 1, 1]),
        (leaf(true), 0, 3, Some(future(1, 3)), [0, 0, 2]),
        (Unit::Sum, 1, 1, Some(future(1, 1)), [0, 0, 0]),
        (Unit::Clear, 2, 3, None, [0, 0, 2]),
        (Unit::Read, 0, 2, Some(future(3, 2)), [0, 1, 1]),
        (Unit::Count, 0, 3, Some(future(3, 3)), [0, 1, 1]),
        (Unit::Total, 1, 1, Some(future(3, 1)), [0, 0, 0]),
        (GUESS, 0, 2, Some(future(5, 2)), [0, 1, 1]),
        (EARLY, 1, 1, Some(future(5, 1)), [0, 0, 0]),
        (LATE, 2, 1, Some(future(5, 1)), [0, 0, 0]),
    ];
    for (unit, part, place, due, homes) in cases {
        let reads = if unit == Unit::Read {
            Some(entry(2))
        } else {
            None
        };
        let counts = if unit == Unit::Count { Some(1) } else { None };
        for (ranks, home) in [1, 2, 16].into_iter().zip(homes) {
            let (label, has, at, read, counted) = told(&app, &unit, ranks);
            assert!(rt; (label.part, label.place) == (part, place) && has == due);
            assert!(rt; at == home && read == reads && counted == counts);
        }
        assert!(rt; app.reads(&unit, 1).is_none());
    }
}

#[test]
fn rank_three_keeps_the_last_result(rt: HostRuntime) {
    let app = app(4);
    for (ranks, home) in [(1, 0), (3, 0), (4, 3), (16, 3)] {
        assert_eq!(rt; App::future_home(&app, &future(3, 1), ranks), home);
        assert_eq!(rt; App::future_home(&app, &future(3, 2), ranks), 0);
    }
}

// Whether these are the effects.
fn are(
    effects: Result<Effects<Unit, u64, u32>, OutOfMemory>,
    expected: &[LentEffect<Unit, u64, u32>],
) -> bool {
    let Ok(mut effects) = effects else {
        return false;
    };
    let mut queue = effects.queue();
    for asked in expected {
        match queue.take_first() {
            Some(effect) if effect == *asked => {}
            _ => return false,
        }
    }
    queue.is_empty()
}

#[test]
fn commands_start_their_units(rt: HostRuntime) {
    let app = app(4);
    let alloc = rt.alloc();
    let needs = [future(3, 2), future(3, 3)];
    let last = [
        LentEffect::Spawn(Unit::Read),
        LentEffect::Spawn(Unit::Count),
        LentEffect::SpawnNeeding(Unit::Total, &needs),
    ];
    assert!(rt; are(app.starts(alloc, 1, 4), &[LentEffect::Spawn(Unit::Fill)]));
    assert!(rt; are(app.starts(alloc, 2, 4), &[]));
    assert!(rt; are(app.starts(alloc, 3, 1), &last));
    assert!(rt; are(app.starts(alloc, 4, 1), &[]));
    let needs = [future(5, 2)];
    let guessing = [
        LentEffect::Spawn(GUESS),
        LentEffect::SpawnNeeding(EARLY, &needs),
    ];
    assert!(rt; are(app.starts(alloc, 5, 2), &guessing));
}

const LEFT: Unit = Unit::Leaf {
    right: false,
    value: 5,
};

const RIGHT: Unit = Unit::Leaf {
    right: true,
    value: 7,
};

#[test]
fn the_first_command_spawns_two_leaves_and_their_sum(rt: HostRuntime) {
    let app = app(4);
    let alloc = rt.alloc();
    let needs = [future(1, 2), future(1, 3)];
    let filled = [
        LentEffect::Spawn(LEFT),
        LentEffect::Spawn(RIGHT),
        LentEffect::SpawnNeeding(Unit::Sum, &needs),
    ];
    let none = Inputs::new(Vec::new(alloc), Vec::new(alloc), 0);
    assert!(rt; are(step(&app, alloc, Unit::Fill, none), &filled));
}

#[test]
fn the_first_command_gives_twelve(rt: HostRuntime) -> Result<(), Fail> {
    let app = app(4);
    let alloc = rt.alloc();
    let none = || Inputs::new(Vec::new(alloc), Vec::new(alloc), 0);
    let put = [
        LentEffect::Put(entry(3), 7),
        LentEffect::Give(future(1, 3), 7),
    ];
    assert!(rt; are(step(&app, alloc, RIGHT, none()), &put));
    let values = [5u64, 7].to_vec(alloc)?;
    let given = Inputs::new(values, Vec::new(alloc), 0);
    let summed = [
        LentEffect::Spawn(Unit::Clear),
        LentEffect::Give(future(1, 1), 12),
    ];
    assert!(rt; are(step(&app, alloc, Unit::Sum, given), &summed));
    let erased = [LentEffect::Erase(entry(3))];
    assert!(rt; are(step(&app, alloc, Unit::Clear, none()), &erased));
    Ok(())
}

#[test]
fn the_last_command_gives_fifty_one(rt: HostRuntime) -> Result<(), Fail> {
    let app = app(4);
    let alloc = rt.alloc();
    let cells = [5u32].to_vec(alloc)?;
    let read = Inputs::new(Vec::new(alloc), cells, 0);
    assert!(rt;
        are(
            step(&app, alloc, Unit::Read, read),
            &[LentEffect::Give(future(3, 2), 5)]
        )
    );
    let counted = Inputs::new(Vec::new(alloc), Vec::new(alloc), 1);
    assert!(rt;
        are(
            step(&app, alloc, Unit::Count, counted),
            &[LentEffect::Give(future(3, 3), 1)]
        )
    );
    let values = [5u64, 1].to_vec(alloc)?;
    let given = Inputs::new(values, Vec::new(alloc), 0);
    assert!(rt;
        are(
            step(&app, alloc, Unit::Total, given),
            &[LentEffect::Give(future(3, 1), 51)]
        )
    );
    assert_eq!(rt; app.copy_value(alloc, &51), Ok(51));
    Ok(())
}

#[test]
fn the_early_unit_puts_the_entry_or_has_the_late_one_put_it(rt: HostRuntime) -> Result<(), Fail> {
    let app = app(4);
    let alloc = rt.alloc();
    let none = || Inputs::new(Vec::new(alloc), Vec::new(alloc), 0);
    let put = || {
        let name = CellName {
            version: 2,
            place: 1,
        };
        [LentEffect::Put(name, 9), LentEffect::Give(future(5, 1), 9)]
    };
    let guess = [LentEffect::Give(future(5, 2), 1)];
    assert!(rt; are(step(&app, alloc, GUESS, none()), &guess));
    assert!(rt; are(step(&app, alloc, LATE, none()), &put()));
    for (number, effects) in [(0u64, put().as_slice()), (1, &[LentEffect::Spawn(LATE)])] {
        let given = Inputs::new([number].to_vec(alloc)?, Vec::new(alloc), 0);
        assert!(rt; are(step(&app, alloc, EARLY, given), effects));
    }
    Ok(())
}

#[test]
fn a_second_thread_finds_what_a_step_gives(rt: HostRuntime) {
    let app = app(4);
    let alloc = rt.alloc();
    let left = Unit::Leaf {
        right: false,
        value: 5,
    };
    for (sought, expected) in [(future(1, 2), Some(5)), (future(1, 3), None)] {
        let none = Inputs::new(Vec::new(alloc), Vec::new(alloc), 0);
        let found = step_and_look(&rt, alloc, &app, left, none, sought);
        assert_eq!(rt; found, Ok(expected));
    }
}

// The laws of any application, at this one.
#[test]
fn laws_hold_here() {
    laws::right_inputs_fit::<SmallApp>();
    laws::sizes_are_zero_where_nothing_is_counted::<SmallApp>();
    laws::spawns_of_a_step_are_apart::<SmallApp>();
    laws::starts_of_a_command_are_apart::<SmallApp>();
}

// The laws of lists that follow an application, at this one.
#[test]
fn laws_on_lists_hold_here() {
    event_laws::laws::spawns_of_a_tree_are_apart::<SmallApp>();
    event_laws::laws::a_label_has_one_bringer::<SmallApp>();
    event_laws::laws::effects_on_entries_are_apart::<SmallApp>();
    event_laws::laws::erases_come_after_puts::<SmallApp>();
    event_laws::receipts::all_before_the_fence_is_done::<SmallApp>();
    event_laws::receipts::nothing_before_the_fence_comes_later::<SmallApp>();
    event_laws::receipts::labels_tell_the_fences_before::<SmallApp>();
    event_laws::receipts::entries_lie_where_they_were_put::<SmallApp>();
    event_laws::receipts::named_units_are_done::<SmallApp>();
    event_laws::receipts::named_units_are_counted::<SmallApp>();
}
