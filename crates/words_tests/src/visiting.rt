//! A run of the visits: rank 0's main starts both, and the three mains go through both fences.
ghost use Rattle.std.specs.Prelude.{◌≡◌, ◌≤◌, Some, []};
ghost use Rattle.words_tests.specs.Turns.{AreOutside};
ghost use Rattle.words_tests.specs.Visits.{program};
ghost use Rattle.words_tests.specs.declared.turns.ThreeRows.{ThreeRows as ThreeRowsData};

use crate::turns::{ThreeRows, pass_fence};
use crate::visits::{Visit, Visits};
use crate::work::{pass_working_fence, start_unit};
use app_core::{Effects, Label};
use world_words::{Lane, Words};

const FIRST: Label = Label {
    command: 1,
    part: 0,
    place: 1,
};

const SECOND: Label = Label {
    command: 1,
    part: 0,
    place: 2,
};

/// The rows of the two fences, where both are passed.
pub fn visit_twice(
    words: &Words<Visits>,
    zero: &mut Lane,
    one: &mut Lane,
    two: &mut Lane,
    effects: &Effects<Visit, u64, u32>,
) -> Option<(ThreeRows, ThreeRows)>
    requires program { words.now.program ≡ program }
    requires outside { AreOutside words.now 0 zero.old one.old two.old }
    requires new { (zero.old.mine ≡ []) × (one.old.mine ≡ []) × (two.old.mine ≡ []) }
    requires room { (30 ≤ zero.old.spare) × (30 ≤ one.old.spare) × (30 ≤ two.old.spare) }
    requires effects { effects.now ≡ [] }
    ensures outside { (r : ThreeRowsData × ThreeRowsData) → result ≡ Some r → AreOutside words.now 2 zero.new one.new two.new }
{
    let to_one = start_unit(words, zero, 1, FIRST);
    let to_two = start_unit(words, zero, 2, SECOND);
    let carriers = (to_one, to_two);
    let units = (FIRST, SECOND);
    let first = pass_working_fence(words, zero, one, two, carriers, units, effects, 0)?;
    let second = pass_fence(words, zero, one, two, 1)?;
    Some((first, second))
}
