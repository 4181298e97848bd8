//! An application of one rank with a unit that puts an entry and spawns another unit, which puts two entries and erases
//! the first.
ghost use Rattle.std.specs.Prelude.{◌≡◌, [], None, ⊤, length, IfOk, refl};
ghost use Rattle.store_tests.specs.Store as store;

use app_core::{App, CellName, CommandKind, Effect, Effects, Facts, Inputs, Label, OutOfMemory};
use std::alloc::Global;

/// A unit: `Fill` puts the old entry and spawns `Move`, which puts two entries in place of it.
#[derive(Clone, Copy, Debug, PartialEq, Eq)]
pub enum StoreUnit {
    Fill,
    Move,
}

/// An application for one rank with one command, which starts `Fill`.
#[derive(Clone, Copy, Debug, PartialEq, Eq)]
pub struct StoreApp;

/// The entry that is put and erased, in bin 1.
pub const OLD: CellName = CellName {
    version: 1,
    place: 17,
};

/// The first entry that stays, in bin 1 too.
pub const FIRST: CellName = CellName {
    version: 1,
    place: 1,
};

/// The second entry that stays, in bin 2.
pub const SECOND: CellName = CellName {
    version: 1,
    place: 2,
};

/// The label of the unit that fills.
pub const FILL: Label = Label {
    command: 1,
    part: 1,
    place: 0,
};

/// The label of the unit that moves.
pub const MOVE: Label = Label {
    command: 1,
    part: 2,
    place: 0,
};

impl Facts for StoreApp {
    ghost ranks_of = { λ _. 1 };

    ghost kinds_of = { λ _. store.kinds };

    ghost starts_of = { λ _ command. store.told 1 (store.starting_of command) };

    ghost may_do = { λ _ label os. store.MayDo label os };

    ghost may_read = { λ _ _ _. ⊥ };

    ghost may_count = { λ _ _ _. ⊥ };

    ghost right_size = { λ _ _ _ _. ⊤ };

    ghost future_home_of = { λ _ _. 0 };

    ghost entry_home_of = { λ _ _. 0 };

    ghost dropped_of = { λ _ _. [] };
}

impl App for StoreApp {
    type Unit = StoreUnit;

    type Value = u64;

    type Cell = u32;

    ghost starting_of = { λ _ command _. store.starting_of command };

    ghost result_of = { λ _ command. store.result_of command };

    ghost label_of = { λ _ unit. store.label_of unit };

    ghost due_of = { λ _ _. None };

    ghost needs_of = { λ _ _. [] };

    ghost home_rule_of = { λ _ _ _. None };

    ghost home_of = { λ _ _ _. 0 };

    ghost kept_rule_of = { λ _ _ _. None };

    ghost kept_at = { λ _ _ _. 0 };

    ghost reads_of = { λ _ _. [] };

    ghost counts_of = { λ _ _. None };

    ghost step_of = { λ _ unit _. store.step_of unit };

    ghost is_unit = { λ _ _. ⊤ };

    ghost right_value = { λ _ _ _. ⊤ };

    ghost right_cell = { λ _ _ _. ⊤ };

    ghost few_commands = { λ _. store.few_commands };

    ghost result_of_work = { λ _ command is. store.results command is };

    ghost few_starts = { λ _ command _ is _. store.few_starts command is };

    ghost starts_are_spawns = { λ _ command _ is _. store.starts_are_spawns command is };

    ghost starts_are_right = { λ _ command is. store.starts_are_right command is };

    ghost starts_have_their_needs = { λ _ command _ is _. store.starts_have_their_needs command is };

    ghost starts_with_needs_run_at_zero = { λ _ command ranks is _. store.starts_with_needs_run_at_zero ranks command is };

    ghost starts_name_their_command = { λ _ command ranks future is _ names. absurd (store.starts_name_none ranks command future is names) };

    ghost starts_have_a_due_once = { λ _ command ranks future is _ names. absurd (store.starts_name_none ranks command future is names) };

    ghost starts_need_others_once = { λ _ command ranks future is _ names _. absurd (store.starts_name_none ranks command future is names) };

    ghost starts_never_need_the_result = { λ _ command ranks is _. store.starts_never_need_the_result ranks command is };

    ghost label_tells_due = { λ _ _ _ _ _ _. refl };

    ghost label_tells_home = { λ _ _ _ _ _ _ _ _. refl };

    ghost home_below = { λ _ _ ranks count. store.zero_below ranks count };

    ghost home_by_rule = { λ _ _ _ _. refl };

    ghost future_home_below = { λ _ _ ranks count. store.zero_below ranks count };

    ghost future_home_by_rule = { λ _ _ _ _. refl };

    ghost needs_are_kept_at_home = { λ _ _ _ _ _ _ _. refl };

    ghost few_reads = { λ _ _ _. store.few_reads };

    ghost few_effects = { λ _ unit _ _ _. store.few_effects unit };

    ghost spawns_have_their_needs = { λ _ unit _ _ _. store.spawns_have_their_needs unit };

    ghost spawns_with_needs_stay = { λ _ unit _ ranks _ _ _. store.spawns_with_needs_stay ranks unit };

    ghost due_is_seen_to_once = { λ _ _ _ _ _. tt };

    ghost due_is_needed_never = { λ _ _ _ _ _. tt };

    ghost only_the_due_is_given = { λ _ unit _ _ _. store.nothing_is_given unit };

    ghost spawns_have_a_due_once = { λ _ unit _ future _ _ names _. absurd (store.steps_name_none unit future names) };

    ghost spawns_need_others_once = { λ _ unit _ future _ _ names _. absurd (store.steps_name_none unit future names) };

    ghost entry_has_one_home = { λ _ _ _ _ _ _ _ _ _ _ _ _ _ _. refl };

    ghost step_is_right = { λ _ unit _ _ _. store.step_is_right unit };

    ghost made_for_ranks = { λ _. store.one_rank };

    ghost starts_are_told = { λ _ _ _. refl };

    ghost steps_are_told = { λ _ unit _ _ _. (unit, refl, refl) };

    ghost allowed_is_a_step = { λ _ _ _ may. store.allowed_is_a_step _ _ may };

    ghost futures_are_told = { λ _ _. refl };

    ghost reads_are_told = { λ _ _ entry _ reads. absurd (store.none_contained entry reads) };

    ghost counts_are_told = { λ _ _ _. tt };

    ghost reads_are_at_home = { λ _ _ _ _ _. refl };

    ghost writes_are_at_home = { λ _ _ _ _ _ _ _. refl };

    fn commands(&self) -> u32 {
        1
    }

    fn kind(&self, _command: u32) -> CommandKind {
        CommandKind::Work
    }

    fn starts(
        &self,
        alloc: Global,
        _command: u32,
        _ranks: u32,
    ) -> Result<Effects<StoreUnit, u64, u32>, OutOfMemory> {
        let mut effects = Effects::new(alloc);
        effects.push(Effect::Spawn(StoreUnit::Fill))?;
        Ok(effects)
    }

    fn result(&self, _command: u32) -> Option<Label> {
        Some(Label {
            command: 1,
            part: 0,
            place: 0,
        })
    }

    fn label(&self, unit: &StoreUnit) -> Label {
        match unit {
            StoreUnit::Fill => FILL,
            StoreUnit::Move => MOVE,
        }
    }

    fn due(&self, _unit: &StoreUnit) -> Option<Label> {
        None
    }

    fn home(&self, _unit: &StoreUnit, _ranks: u32) -> u32 {
        0
    }

    fn future_home(&self, _future: &Label, _ranks: u32) -> u32 {
        0
    }

    fn reads(&self, _unit: &StoreUnit, _index: u32) -> Option<CellName> {
        None
    }

    fn counts(&self, _unit: &StoreUnit) -> Option<u32> {
        None
    }

    fn step(
        &self,
        alloc: Global,
        unit: StoreUnit,
        inputs: Inputs<u64, u32>,
    ) -> Result<Effects<StoreUnit, u64, u32>, OutOfMemory>
        requires unit { ⊤ }
        requires values { length inputs.values ≡ 0 }
        requires cells { length inputs.cells ≡ 0 }
        ensures { IfOk result (λ e. e ≡ store.step_of unit) }
    {
        let _ = inputs.size();
        let mut effects = Effects::new(alloc);
        match unit {
            StoreUnit::Fill => {
                effects.push(Effect::Put(OLD, 7))?;
                effects.push(Effect::Spawn(StoreUnit::Move))?;
            }
            StoreUnit::Move => {
                effects.push(Effect::Put(FIRST, 7))?;
                effects.push(Effect::Put(SECOND, 8))?;
                effects.push(Effect::Erase(OLD))?;
            }
        }
        Ok(effects)
    }

    fn dropped(&self, _fence: u32, _index: u32) -> Option<u32> {
        None
    }

    fn copy_value(&self, _alloc: Global, value: &u64) -> Result<u64, OutOfMemory> {
        Ok(*value)
    }
}
