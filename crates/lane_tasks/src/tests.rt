//! What no clause says: that memory suffices. And the way of a task from one lane to another.
ghost use Rattle.std.specs.Prelude.{◌≡◌, ◌≢◌, ◌<◌, false, None, Some, [], slice_get};
ghost use Rattle.app_core.specs.declared.outline.Outline.TheVariants.{Spawn};
ghost use Rattle.event_lists.specs.Events.{main_of};
ghost use Rattle.event_laws.specs.Follows.{Start, program_at};

use crate::examples::submit_first;
use crate::{LaneReady, OutOfMemory, take_up};
use app_core::App;
use event_lists::LaneName;
use small_app::{SmallApp, Unit};
use std::alloc::Global;
use std::marker::Brand;
use std::test::Fail;
use world_carriers::WordsNaming;
use world_words::{Lane, Words};

// A main submits a task without needs; the main of another rank gives it back, and a worker takes it up.
fn hand_over_named<A: App, J: WordsNaming<A>>(
    alloc: Global,
    app: &A,
    words: &Words<A>,
    main: &mut Lane,
    first: &mut Lane,
    second: &mut Lane,
    unit: A::Unit,
) -> Result<bool, OutOfMemory>
    requires named { (J.app ≡ Some app.now) × (J.words ≡ Some words.now) }
    requires unit { A.is_unit app.now unit × (A.needs_of app.now unit ≡ []) }
    requires tables { (main.old.table ≡ words.now.table) × (first.old.table ≡ words.now.table) × (second.old.table ≡ words.now.table) }
    requires main { (main.old.mine ≡ []) × (main.old.seen ≡ []) × (main.old.owes ≡ None) × (0 < main.old.spare) × (main.old.name ≡ main_of main.old.name.rank) }
    requires first { (first.old.mine ≡ []) × (first.old.owes ≡ None) × (0 < first.old.spare) × (first.old.name.bin ≡ false) }
    requires second { (second.old.mine ≡ []) × (second.old.owes ≡ None) × (0 < second.old.spare) × (second.old.name.bin ≡ false) }
    requires next { slice_get (program_at main.old.name.rank words.now.program) 0 ≡ Some (Start (Spawn (A.label_of app.now unit) (A.due_of app.now unit) [] main.old.name.rank)) }
{
    let task = submit_first::<A, J>(alloc, app, words, main, unit, &[])?;
    if !task.is_ready() {
        return Ok(false);
    }
    match take_up(words, first, LaneReady::new(task)) {
        Ok(_) => Ok(false),
        Err(ready) => Ok(take_up(words, second, ready).is_ok()),
    }
}

fn hand_over<A: App>(
    alloc: Global,
    app: &A,
    words: &Words<A>,
    main: &mut Lane,
    first: &mut Lane,
    second: &mut Lane,
    unit: A::Unit,
) -> Result<bool, OutOfMemory>
    requires unit { A.is_unit app.now unit × (A.needs_of app.now unit ≡ []) }
    requires tables { (main.old.table ≡ words.now.table) × (first.old.table ≡ words.now.table) × (second.old.table ≡ words.now.table) }
    requires main { (main.old.mine ≡ []) × (main.old.seen ≡ []) × (main.old.owes ≡ None) × (0 < main.old.spare) × (main.old.name ≡ main_of main.old.name.rank) }
    requires first { (first.old.mine ≡ []) × (first.old.owes ≡ None) × (0 < first.old.spare) × (first.old.name.bin ≡ false) }
    requires second { (second.old.mine ≡ []) × (second.old.owes ≡ None) × (0 < second.old.spare) × (second.old.name.bin ≡ false) }
    requires next { slice_get (program_at main.old.name.rank words.now.program) 0 ≡ Some (Start (Spawn (A.label_of app.now unit) (A.due_of app.now unit) [] main.old.name.rank)) }
{
    hand_over_named::<A, Brand>(alloc, app, words, main, first, second, unit)
}

const APP: SmallApp = SmallApp { ranks: 2 };

const MAIN: LaneName = LaneName {
    rank: 0,
    bin: false,
    number: 0,
};

const WORKER: LaneName = LaneName {
    rank: 0,
    bin: false,
    number: 1,
};

const OTHER: LaneName = LaneName {
    rank: 1,
    bin: false,
    number: 0,
};

#[test]
fn a_task_is_taken_up_at_its_rank(rt: HostRuntime) -> Result<(), Fail> {
    let (words, mut root) = Words::with_root(rt.alloc(), &APP, 2, 1, true)?;
    let mut main = words.lane(&mut root, MAIN);
    let mut other = words.lane(&mut root, OTHER);
    let mut worker = words.lane(&mut root, WORKER);
    words.reserve(&mut main, 1)?;
    words.reserve(&mut other, 1)?;
    words.reserve(&mut worker, 1)?;
    let taken = hand_over(
        rt.alloc(),
        &APP,
        &words,
        &mut main,
        &mut other,
        &mut worker,
        Unit::Fill,
    )?;
    assert!(rt; taken);
    assert_eq!(rt; (main.spare(), other.spare(), worker.spare()), (0, 1, 0));
    Ok(())
}
