//! A unit that waits behind a lock beside its carrier.
ghost use Rattle.std.specs.Prelude.{◌≡◌, ◌≢◌, ◌<◌, None, Some, [], false, slice_get};
ghost use Rattle.app_core.specs.declared.outline.Outline.TheVariants.{Spawn};
ghost use Rattle.event_lists.specs.Events.{main_of};
ghost use Rattle.event_laws.specs.Follows.{Start, program_at};

use crate::examples::{Note, fetch, post};
use crate::{Carried, WordsNaming};
use app_core::{Facts, Label};
use event_lists::LaneName;
use std::alloc::Global;
use std::collections::VecDeque;
use std::marker::Brand;
use std::sync::{Mutex, Wait};
use std::test::Fail;
use world_words::{Carrier, Lane, Words};

// A unit goes from one main to the other by an inbox; the task that it makes is owed then.
fn deliver<A: Facts, J: WordsNaming<A>, R: Wait>(
    rt: &R,
    alloc: Global,
    words: &Words<A>,
    one: &mut Lane,
    two: &mut Lane,
    unit: Label,
) -> Option<Carrier>
    requires named { J.words ≡ Some words.now }
    requires tables { (one.old.table ≡ words.now.table) × (two.old.table ≡ words.now.table) }
    requires one { (one.old.mine ≡ []) × (one.old.owes ≡ None) × (0 < one.old.spare) × (one.old.name ≡ main_of one.old.name.rank) × (1 ≢ one.old.name.rank) }
    requires two { (two.old.mine ≡ []) × (two.old.owes ≡ None) × (2 < two.old.spare) × (two.old.name.bin ≡ false) }
    requires ranks { 1 < words.now.ranks }
    requires next { slice_get (program_at one.old.name.rank words.now.program) 0 ≡ Some (Start (Spawn unit None [] 1)) }
{
    let inbox: Mutex<VecDeque<Carried<A, J, Note>>> = Mutex::new(VecDeque::new(alloc));
    if !post(rt, words, &inbox, one, 1, unit) {
        return None;
    }
    fetch(rt, words, &inbox, two)
}

// The same for these words.
fn deliver_here<A: Facts, R: Wait>(
    rt: &R,
    alloc: Global,
    words: &Words<A>,
    one: &mut Lane,
    two: &mut Lane,
    unit: Label,
) -> Option<Carrier>
    requires tables { (one.old.table ≡ words.now.table) × (two.old.table ≡ words.now.table) }
    requires one { (one.old.mine ≡ []) × (one.old.owes ≡ None) × (0 < one.old.spare) × (one.old.name ≡ main_of one.old.name.rank) × (1 ≢ one.old.name.rank) }
    requires two { (two.old.mine ≡ []) × (two.old.owes ≡ None) × (2 < two.old.spare) × (two.old.name.bin ≡ false) }
    requires ranks { 1 < words.now.ranks }
    requires next { slice_get (program_at one.old.name.rank words.now.program) 0 ≡ Some (Start (Spawn unit None [] 1)) }
{
    deliver::<A, Brand, R>(rt, alloc, words, one, two, unit)
}

// An application with one command, whose only start is a unit at rank 1 without effects.
struct Pair;

impl Facts for Pair {
    ghost use Rattle.std.specs.Prelude.{◌≡◌, ℕ, None, [], ◌∷◌};
    ghost use Rattle.app_core.specs.declared.outline.Outline.TheVariants.{Spawn};
    ghost use Rattle.app_core.specs.declared.outline.CommandKind.TheVariants.{Work};

    ghost ranks_of = { λ _. 2 };

    ghost kinds_of = { λ _. Work ∷ [] };

    ghost starts_of = { λ _ _. Spawn (record { command = 1; part = 0; place = 0 }) None [] 1 ∷ [] };

    ghost may_do = { λ _ _ os. os ≡ [] };

    ghost may_read = { λ _ _ _. Unit {0} };

    ghost may_count = { λ _ _ _. Unit {0} };

    ghost right_size = { λ _ _ _ _. Unit {0} };

    ghost future_home_of = { λ _ _. 0 };

    ghost entry_home_of = { λ _ _. 0 };

    ghost dropped_of = { λ _ _. [] };
}

const UNIT: Label = Label {
    command: 1,
    part: 0,
    place: 0,
};

const FIRST: LaneName = LaneName {
    rank: 0,
    bin: false,
    number: 0,
};

const SECOND: LaneName = LaneName {
    rank: 1,
    bin: false,
    number: 0,
};

#[test]
fn a_unit_waits_beside_its_carrier(rt: HostRuntime) -> Result<(), Fail> {
    let (words, mut root) = Words::with_root(rt.alloc(), &Pair, 2, 0, true)?;
    let mut one = words.lane(&mut root, FIRST);
    let mut two = words.lane(&mut root, SECOND);
    words.reserve(&mut one, 1)?;
    words.reserve(&mut two, 3)?;
    let task = deliver_here(&rt, rt.alloc(), &words, &mut one, &mut two, UNIT);
    assert!(rt; task.is_some());
    assert_eq!(rt; (one.spare(), two.spare()), (0, 0));
    Ok(())
}
