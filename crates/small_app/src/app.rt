//! The application itself.
ghost use Rattle.std.specs.Prelude.{◌≡◌, ◌≢◌, [], ◌∷◌, ◌++◌, Some, length, IfOk, OnOk, OnErr, refl};
ghost use Rattle.app_core.specs.Commands.{IsRankCount};
ghost use Rattle.app_core.specs.Homes.{rank_within as ranks_within};
ghost use Rattle.app_core.specs.declared.Effect.TheVariants.{Spawn as Spawned, SpawnNeeding as Waiting};
ghost use Rattle.small_app.specs.declared.unit.Unit.TheVariants.{Leaf};
ghost use Rattle.small_app.specs.Small as small;
ghost use Rattle.small_app.specs.SmallLaws as laws;

use crate::guess::{GUESS_FUTURE, GUESS_RESULT, GuessUnit};
use crate::unit::Unit;
use app_core::{App, CellName, CommandKind, Effect, Effects, Facts, Inputs, Label, OutOfMemory};
use std::alloc::Global;

/// The small application, made for a number of ranks from 1 to 16.
#[derive(Clone, Copy, Debug, PartialEq, Eq)]
pub struct SmallApp {
    pub ranks: u32,
    pub ghost in_range: { IsRankCount ranks },
}

const FIRST_RESULT: Label = Label {
    command: 1,
    part: 0,
    place: 1,
};

const LAST_RESULT: Label = Label {
    command: 3,
    part: 0,
    place: 1,
};

const READ_FUTURE: Label = Label {
    command: 3,
    part: 0,
    place: 2,
};

const COUNT_FUTURE: Label = Label {
    command: 3,
    part: 0,
    place: 3,
};

// The future of a leaf.
fn leaf_future(right: bool) -> Label
    ensures { result ≡ small.leaf_future right }
{
    Label {
        command: 1,
        part: 0,
        place: if right { 3 } else { 2 },
    }
}

// The entry of a leaf.
fn leaf_entry(right: bool) -> CellName
    ensures { result ≡ small.leaf_entry right }
{
    CellName {
        version: 1,
        place: if right { 3 } else { 2 },
    }
}

// The rank that a rule names, or rank 0 where it isn't there.
fn rank_within(ranks: u32, rank: Option<u32>) -> u32
    ensures { result ≡ ranks_within ranks rank }
{
    match rank {
        Some(rank) if rank < ranks => rank,
        _ => 0,
    }
}

// The rank that the rule names for the entry of a leaf.
fn leaf_rank(right: bool) -> u32
    ensures { Some result ≡ small.leaf_rank right }
{
    if right { 2 } else { 1 }
}

impl Facts for SmallApp {
    ghost ranks_of = { λ app. app.ranks };

    ghost kinds_of = { λ _. small.kinds };

    ghost starts_of = { λ app command. small.starts_of app.ranks command };

    ghost may_do = { λ app label os. small.MayDo app.ranks label os };

    ghost may_read = { λ _ label entry. small.MayRead label entry };

    ghost may_count = { λ _ label version. small.MayCount label version };

    ghost right_size = { λ app rank version number. small.IsRightSize app.ranks rank version number };

    ghost future_home_of = { λ app future. small.kept_at future app.ranks };

    ghost entry_home_of = { λ app entry. small.entry_home_of app.ranks entry };

    ghost dropped_of = { λ _ fence. small.dropped_of fence };
}

impl App for SmallApp {
    type Unit = Unit;

    type Value = u64;

    type Cell = u32;

    ghost starting_of = { λ _ command _. small.starting_of command };

    ghost result_of = { λ _ command. small.result_of command };

    ghost label_of = { λ _ unit. small.label_of unit };

    ghost due_of = { λ _ unit. small.due_of unit };

    ghost needs_of = { λ _ unit. small.needs_of unit };

    ghost home_rule_of = { λ _ unit _. small.home_rule_of unit };

    ghost home_of = { λ _ unit ranks. small.home_of unit ranks };

    ghost kept_rule_of = { λ _ future _. small.kept_rule_of future };

    ghost kept_at = { λ _ future ranks. small.kept_at future ranks };

    ghost reads_of = { λ _ unit. small.reads_of unit };

    ghost counts_of = { λ _ unit. small.counts_of unit };

    ghost step_of = { λ _ unit given. small.step_of unit given };

    ghost is_unit = { λ _ unit. small.IsUnit unit };

    ghost right_value = { λ _ future value. small.IsRightValue future value };

    ghost right_cell = { λ _ entry cell. small.IsRightCell entry cell };

    ghost few_commands = { λ _. laws.few_commands };

    ghost result_of_work = { λ _ command is. laws.results command is };

    ghost few_starts = { λ _ command _ is _. laws.few_starts command is };

    ghost starts_are_spawns = { λ _ command _ is _. laws.starts_are_spawns command is };

    ghost starts_are_right = { λ _ command is. laws.starts_are_right command is };

    ghost starts_have_their_needs = { λ _ command _ is _. laws.starts_have_their_needs command is };

    ghost starts_with_needs_run_at_zero = { λ _ command ranks is _. laws.starts_with_needs_run_at_zero ranks command is };

    ghost starts_name_their_command = { λ _ command ranks future is _ names. laws.starts_name_their_command ranks command future is names };

    ghost starts_have_a_due_once = { λ _ command ranks future is _ names. laws.starts_have_a_due_once ranks command future is names };

    ghost starts_need_others_once = { λ _ command ranks future is _ names other. laws.starts_need_others_once ranks command future is names other };

    ghost starts_never_need_the_result = { λ _ command ranks is _. laws.starts_never_need_the_result ranks command is };

    ghost label_tells_due = { λ _ unit other _ _ same. laws.label_tells_due unit other same };

    ghost label_tells_home = { λ _ unit other ranks _ _ _ same. laws.label_tells_home unit other ranks same };

    ghost home_below = { λ _ unit ranks count. laws.rank_below ranks count (small.home_rule_of unit) };

    ghost home_by_rule = { λ _ _ _ _. refl };

    ghost future_home_below = { λ _ future ranks count. laws.rank_below ranks count (small.kept_rule_of future) };

    ghost future_home_by_rule = { λ _ _ _ _. refl };

    ghost needs_are_kept_at_home = { λ _ unit future ranks _ _ needs. laws.needs_are_kept_at_home unit future ranks needs };

    ghost few_reads = { λ _ unit _. laws.few_reads unit };

    ghost few_effects = { λ _ unit given _ _. laws.few_effects unit given };

    ghost spawns_have_their_needs = { λ _ unit given _ _. laws.spawns_have_their_needs unit given };

    ghost spawns_with_needs_stay = { λ _ unit given ranks _ _ _. laws.spawns_with_needs_stay ranks unit given };

    ghost due_is_seen_to_once = { λ app unit given _ _. laws.due_is_seen_to_once app.ranks unit given };

    ghost due_is_needed_never = { λ app unit given _ _. laws.due_is_needed_never app.ranks unit given };

    ghost only_the_due_is_given = { λ app unit given _ _. laws.only_the_due_is_given app.ranks unit given };

    ghost spawns_have_a_due_once = { λ app unit given future _ _ names other. laws.spawns_have_a_due_once app.ranks unit given future names other };

    ghost spawns_need_others_once = { λ app unit given future _ _ names other. laws.spawns_need_others_once app.ranks unit given future names other };

    ghost entry_has_one_home = { λ _ unit other given more entry ranks _ _ _ _ _ touches again. laws.entry_has_one_home ranks unit other given more entry touches again };

    ghost step_is_right = { λ app unit given is right. laws.step_is_right app.ranks unit given is right };

    ghost made_for_ranks = { λ app. app.in_range };

    ghost starts_are_told = { λ _ _ _. refl };

    ghost steps_are_told = { λ _ unit given is right. (unit, given, is, refl, right, refl) };

    ghost allowed_is_a_step = { λ _ _ _ may. may };

    ghost futures_are_told = { λ _ _. refl };

    ghost reads_are_told = { λ _ unit entry is reads. laws.reads_are_told unit entry is reads };

    ghost counts_are_told = { λ _ unit is. laws.counts_are_told unit is };

    ghost reads_are_at_home = { λ app unit entry _ reads. laws.reads_are_at_home app.ranks unit entry reads };

    ghost writes_are_at_home = { λ app unit given entry _ _ touches. laws.writes_are_at_home app.ranks unit given entry touches };

    fn commands(&self) -> u32 {
        5
    }

    fn kind(&self, command: u32) -> CommandKind {
        if command == 2 || command == 4 {
            CommandKind::Fence
        } else {
            CommandKind::Work
        }
    }

    fn starts(
        &self,
        alloc: Global,
        command: u32,
        _ranks: u32,
    ) -> Result<Effects<Unit, u64, u32>, OutOfMemory> {
        let mut effects = Effects::new(alloc);
        if command == 1 {
            effects.push(Effect::Spawn(Unit::Fill))?;
        } else if command == 3 {
            effects.push(Effect::Spawn(Unit::Read))?;
            effects.push(Effect::Spawn(Unit::Count))?;
            push_waiting(&mut effects, Unit::Total, READ_FUTURE, COUNT_FUTURE)?;
        } else if command == 5 {
            effects.push(Effect::Spawn(Unit::Guessed(GuessUnit::Guess)))?;
            effects.push_needing(Unit::Guessed(GuessUnit::Early), &[GUESS_FUTURE])?;
        }
        Ok(effects)
    }

    fn result(&self, command: u32) -> Option<Label> {
        match command {
            1 => Some(FIRST_RESULT),
            3 => Some(LAST_RESULT),
            5 => Some(GUESS_RESULT),
            _ => None,
        }
    }

    fn label(&self, unit: &Unit) -> Label {
        match *unit {
            Unit::Fill => FIRST_RESULT,
            Unit::Leaf { right, value: _ } => leaf_future(right),
            Unit::Sum => Label {
                command: 1,
                part: 1,
                place: 1,
            },
            Unit::Clear => Label {
                command: 1,
                part: 2,
                place: 3,
            },
            Unit::Read => READ_FUTURE,
            Unit::Count => COUNT_FUTURE,
            Unit::Total => Label {
                command: 3,
                part: 1,
                place: 1,
            },
            Unit::Guessed(unit) => unit.label(),
        }
    }

    fn due(&self, unit: &Unit) -> Option<Label> {
        match *unit {
            Unit::Fill | Unit::Sum => Some(FIRST_RESULT),
            Unit::Leaf { right, value: _ } => Some(leaf_future(right)),
            Unit::Clear => None,
            Unit::Read => Some(READ_FUTURE),
            Unit::Count => Some(COUNT_FUTURE),
            Unit::Total => Some(LAST_RESULT),
            Unit::Guessed(unit) => Some(unit.due()),
        }
    }

    fn home(&self, unit: &Unit, ranks: u32) -> u32 {
        let rank = match *unit {
            Unit::Fill | Unit::Sum | Unit::Total => 0,
            Unit::Leaf { right, value: _ } => leaf_rank(right),
            Unit::Clear => leaf_rank(true),
            Unit::Read | Unit::Count => leaf_rank(false),
            Unit::Guessed(unit) => unit.rank(),
        };
        rank_within(ranks, Some(rank))
    }

    fn future_home(&self, future: &Label, ranks: u32) -> u32 {
        let rank = if *future == LAST_RESULT {
            Some(3)
        } else if future.part == 0 {
            Some(0)
        } else {
            None
        };
        rank_within(ranks, rank)
    }

    fn reads(&self, unit: &Unit, index: u32) -> Option<CellName> {
        match unit {
            Unit::Read if index == 0 => Some(leaf_entry(false)),
            _ => None,
        }
    }

    fn counts(&self, unit: &Unit) -> Option<u32> {
        match unit {
            Unit::Count => Some(1),
            _ => None,
        }
    }

    fn step(
        &self,
        alloc: Global,
        unit: Unit,
        inputs: Inputs<u64, u32>,
    ) -> Result<Effects<Unit, u64, u32>, OutOfMemory>
        requires unit { small.IsUnit unit }
        requires values { length inputs.values ≡ length (small.needs_of unit) }
        requires cells { length inputs.cells ≡ length (small.reads_of unit) }
        ensures { IfOk result (λ e. e ≡ small.step_of unit inputs) }
    {
        let mut effects = Effects::new(alloc);
        match unit {
            Unit::Fill => {
                effects.push(leaf(false, 5))?;
                effects.push(leaf(true, 7))?;
                push_waiting(
                    &mut effects,
                    Unit::Sum,
                    leaf_future(false),
                    leaf_future(true),
                )?;
            }
            Unit::Leaf { right, value } => {
                effects.push(Effect::Put(leaf_entry(right), value))?;
                effects.push(Effect::Give(leaf_future(right), u64::from(value)))?;
            }
            Unit::Sum => {
                let sum = inputs.values()[0].wrapping_add(inputs.values()[1]);
                effects.push(Effect::Spawn(Unit::Clear))?;
                effects.push(Effect::Give(FIRST_RESULT, sum))?;
            }
            Unit::Clear => effects.push(Effect::Erase(leaf_entry(true)))?,
            Unit::Read => {
                let cell = inputs.cells()[0];
                effects.push(Effect::Give(READ_FUTURE, u64::from(cell)))?;
            }
            Unit::Count => effects.push(Effect::Give(COUNT_FUTURE, inputs.size()))?,
            Unit::Total => {
                let tens = inputs.values()[0].wrapping_mul(10);
                let total = tens.wrapping_add(inputs.values()[1]);
                effects.push(Effect::Give(LAST_RESULT, total))?;
            }
            Unit::Guessed(unit) => unit.step(inputs.values(), &mut effects)?,
        }
        Ok(effects)
    }

    fn dropped(&self, fence: u32, index: u32) -> Option<u32> {
        if fence == 2 && index == 0 {
            Some(1)
        } else {
            None
        }
    }

    fn copy_value(&self, _alloc: Global, value: &u64) -> Result<u64, OutOfMemory> {
        Ok(*value)
    }
}

// A spawn of a leaf.
fn leaf(right: bool, value: u32) -> Effect<Unit, u64, u32>
    ensures { result ≡ Spawned (Leaf right value) }
{
    Effect::Spawn(Unit::Leaf { right, value })
}

// Adds a spawn of a unit that needs these two futures last.
fn push_waiting(
    effects: &mut Effects<Unit, u64, u32>,
    unit: Unit,
    first: Label,
    second: Label,
) -> Result<(), OutOfMemory>
    requires { first ≢ second }
    ensures ok { OnOk result (effects.new ≡ effects.old ++ Waiting unit (first ∷ second ∷ []) ∷ []) }
    ensures err { OnErr result (effects.new ≡ effects.old) }
{
    effects.push_needing(unit, &[first, second])
}
