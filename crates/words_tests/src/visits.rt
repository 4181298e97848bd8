//! An application whose units do nothing, so that a test may have them sent, submitted and run.
ghost use Rattle.std.specs.Prelude.{◌≡◌, [], Some, None, ⊤, length, IfOk, refl};
ghost use Rattle.words_tests.specs.Visits as visits;

use app_core::{App, CellName, CommandKind, Effect, Effects, Facts, Inputs, Label, OutOfMemory};
use std::alloc::Global;

/// A unit that does nothing at the rank with this number.
#[derive(Clone, Copy, Debug, PartialEq, Eq)]
pub struct Visit {
    pub to: u32,
}

/// An application for three ranks with a command and a fence. The command sends a unit to rank 1 and one to rank 2.
#[derive(Clone, Copy, Debug, PartialEq, Eq)]
pub struct Visits;

impl Facts for Visits {
    ghost ranks_of = { λ _. 3 };

    ghost kinds_of = { λ _. visits.kinds };

    ghost starts_of = { λ _ command. visits.told 3 (visits.starting_of command) };

    ghost may_do = { λ _ label os. visits.MayDo label os };

    ghost may_read = { λ _ _ _. ⊤ };

    ghost may_count = { λ _ _ _. ⊤ };

    ghost right_size = { λ _ _ _ _. ⊤ };

    ghost future_home_of = { λ _ _. 0 };

    ghost entry_home_of = { λ _ _. 0 };

    ghost dropped_of = { λ _ _. [] };
}

impl App for Visits {
    type Unit = Visit;

    type Value = u64;

    type Cell = u32;

    ghost starting_of = { λ _ command _. visits.starting_of command };

    ghost result_of = { λ _ command. visits.result_of command };

    ghost label_of = { λ _ unit. visits.label_of unit };

    ghost due_of = { λ _ _. None };

    ghost needs_of = { λ _ unit. visits.needs_of unit };

    ghost home_rule_of = { λ _ unit _. Some unit.to };

    ghost home_of = { λ _ unit ranks. visits.home_of unit ranks };

    ghost kept_rule_of = { λ _ _ _. None };

    ghost kept_at = { λ _ _ _. 0 };

    ghost reads_of = { λ _ unit. visits.reads_of unit };

    ghost counts_of = { λ _ _. None };

    ghost step_of = { λ _ unit given. visits.step_of unit given };

    ghost is_unit = { λ _ unit. visits.IsUnit unit };

    ghost right_value = { λ _ _ _. ⊤ };

    ghost right_cell = { λ _ _ _. ⊤ };

    ghost few_commands = { λ _. visits.few_commands };

    ghost result_of_work = { λ _ command is. visits.results command is };

    ghost few_starts = { λ _ command _ is _. visits.few_starts command is };

    ghost starts_are_spawns = { λ _ command _ is _. visits.starts_are_spawns command is };

    ghost starts_are_right = { λ _ command is. visits.starts_are_right command is };

    ghost starts_have_their_needs = { λ _ command _ is _. visits.starts_have_their_needs command is };

    ghost starts_with_needs_run_at_zero = { λ _ command ranks is _. visits.starts_with_needs_run_at_zero ranks command is };

    ghost starts_name_their_command = { λ _ command ranks future is _ names. absurd (visits.starts_name_none ranks command future is names) };

    ghost starts_have_a_due_once = { λ _ command ranks future is _ names. absurd (visits.starts_name_none ranks command future is names) };

    ghost starts_need_others_once = { λ _ command ranks future is _ names _. absurd (visits.starts_name_none ranks command future is names) };

    ghost starts_never_need_the_result = { λ _ command ranks is _. visits.starts_never_need_the_result ranks command is };

    ghost label_tells_due = { λ _ _ _ _ _ _. refl };

    ghost label_tells_home = { λ _ unit other ranks _ _ _ same. visits.label_tells_home unit other ranks same };

    ghost home_below = { λ _ unit ranks count. visits.rank_below ranks unit.to count };

    ghost home_by_rule = { λ _ _ _ _. refl };

    ghost future_home_below = { λ _ _ ranks count. visits.zero_below ranks count };

    ghost future_home_by_rule = { λ _ _ _ _. refl };

    ghost needs_are_kept_at_home = { λ _ _ future _ _ _ needs. absurd (visits.none_contained future needs) };

    ghost few_reads = { λ _ _ _. visits.few_reads };

    ghost few_effects = { λ _ _ _ _ _. visits.few_effects };

    ghost spawns_have_their_needs = { λ _ _ _ _ _. tt };

    ghost spawns_with_needs_stay = { λ _ _ _ _ _ _ _. tt };

    ghost due_is_seen_to_once = { λ _ _ _ _ _. tt };

    ghost due_is_needed_never = { λ _ _ _ _ _. tt };

    ghost only_the_due_is_given = { λ _ _ _ _ _. tt };

    ghost spawns_have_a_due_once = { λ _ _ _ future _ _ names _. absurd (visits.none_contained future names) };

    ghost spawns_need_others_once = { λ _ _ _ future _ _ names _. absurd (visits.none_contained future names) };

    ghost entry_has_one_home = { λ _ _ _ _ _ entry _ _ _ _ _ _ touches _. absurd (visits.none_contained entry touches) };

    ghost step_is_right = { λ _ _ _ _ _. tt };

    ghost made_for_ranks = { λ _. visits.three_ranks };

    ghost starts_are_told = { λ _ _ _. refl };

    ghost steps_are_told = { λ _ unit _ _ _. (unit, refl, refl) };

    ghost allowed_is_a_step = { λ _ _ _ may. visits.allowed_is_a_step _ _ may };

    ghost futures_are_told = { λ _ _. refl };

    ghost reads_are_told = { λ _ _ _ _ _. tt };

    ghost counts_are_told = { λ _ _ _. tt };

    ghost reads_are_at_home = { λ _ _ entry _ reads. absurd (visits.none_contained entry reads) };

    ghost writes_are_at_home = { λ _ _ _ entry _ _ touches. absurd (visits.none_contained entry touches) };

    fn commands(&self) -> u32 {
        2
    }

    fn kind(&self, command: u32) -> CommandKind {
        if command == 1 {
            CommandKind::Work
        } else {
            CommandKind::Fence
        }
    }

    fn starts(
        &self,
        alloc: Global,
        command: u32,
        _ranks: u32,
    ) -> Result<Effects<Visit, u64, u32>, OutOfMemory> {
        let mut effects = Effects::new(alloc);
        if command == 1 {
            effects.push(Effect::Spawn(Visit { to: 1 }))?;
            effects.push(Effect::Spawn(Visit { to: 2 }))?;
        }
        Ok(effects)
    }

    fn result(&self, command: u32) -> Option<Label> {
        if command == 1 {
            Some(Label {
                command: 1,
                part: 1,
                place: 0,
            })
        } else {
            None
        }
    }

    fn label(&self, unit: &Visit) -> Label {
        Label {
            command: 1,
            part: 0,
            place: u64::from(unit.to),
        }
    }

    fn due(&self, _unit: &Visit) -> Option<Label> {
        None
    }

    fn home(&self, unit: &Visit, ranks: u32) -> u32 {
        if unit.to < ranks { unit.to } else { 0 }
    }

    fn future_home(&self, _future: &Label, _ranks: u32) -> u32 {
        0
    }

    fn reads(&self, _unit: &Visit, _index: u32) -> Option<CellName> {
        None
    }

    fn counts(&self, _unit: &Visit) -> Option<u32> {
        None
    }

    fn step(
        &self,
        alloc: Global,
        unit: Visit,
        inputs: Inputs<u64, u32>,
    ) -> Result<Effects<Visit, u64, u32>, OutOfMemory>
        requires unit { visits.IsUnit unit }
        requires values { length inputs.values ≡ length (visits.needs_of unit) }
        requires cells { length inputs.cells ≡ length (visits.reads_of unit) }
        ensures { IfOk result (λ e. e ≡ visits.step_of unit inputs) }
    {
        let _ = (unit, inputs.size());
        Ok(Effects::new(alloc))
    }

    fn dropped(&self, _fence: u32, _index: u32) -> Option<u32> {
        None
    }

    fn copy_value(&self, _alloc: Global, value: &u64) -> Result<u64, OutOfMemory> {
        Ok(*value)
    }
}
