//! The application of a job as an `App`: its facts, its laws and its calls.
ghost use Rattle.std.specs.Prelude.{◌≡◌, IfOk, [], refl};
ghost use Rattle.haar_meaning.specs.RightValues.{IsRightValue};
ghost use Rattle.haar_meaning.specs.RightCells.{IsRightCell, IsRightSize};
ghost use Rattle.haar_meaning.specs.JobUnits.{IsUnit};
ghost use Rattle.haar_units.specs.Distributions.{by_map, place_owner};
ghost use Rattle.haar_base.specs.Units as units;
ghost use Rattle.haar_steps.specs.Forms.{told};
ghost use Rattle.haar_steps.specs.Starts as starts;
ghost use Rattle.haar_steps.specs.Steps as steps;
ghost use Rattle.haar_lists.specs.Lists as lists;
ghost use Rattle.haar_app.specs.AppLaws as laws;
ghost use Rattle.haar_app.specs.Planning.{planned};

use crate::haar_app::HaarApp;
use app_core::{App, CellName, CommandKind, Effects, Facts, Inputs, Label, OutOfMemory};
use haar_base::{Unit, Value};
use haar_node::Node;
use haar_steps::{homes, labels};
use std::alloc::Global;

impl Facts for HaarApp {
    ghost ranks_of = { λ app. app.ranks };

    ghost kinds_of = { λ app. starts.kinds_of app.commands.operations.items };

    ghost starts_of = { λ app command. told app.map app.ranks (starts.starting_of app.commands.operations.items command app.ranks) };

    ghost may_do = { λ app label os. lists.MayDo (planned app.job app.commands.depth app.commands.operations.items app.map app.ranks) label os };

    ghost may_read = { λ app label entry. lists.MayRead (planned app.job app.commands.depth app.commands.operations.items app.map app.ranks) label entry };

    ghost may_count = { λ app label version. lists.MayCount (planned app.job app.commands.depth app.commands.operations.items app.map app.ranks) label version };

    ghost right_size = { λ app rank version number. IsRightSize (planned app.job app.commands.depth app.commands.operations.items app.map app.ranks) rank version number };

    ghost future_home_of = { λ app future. units.kept_at app.map future app.ranks };

    ghost entry_home_of = { λ app entry. place_owner (by_map app.map app.ranks) entry.place };

    ghost dropped_of = { λ _ _. [] };
}

impl App for HaarApp {
    type Unit = Unit;

    type Value = Value;

    type Cell = Node;

    ghost starting_of = { λ app command ranks. starts.starting_of app.commands.operations.items command ranks };

    ghost result_of = { λ app command. starts.result_of app.commands.operations.items command };

    ghost label_of = { λ _ unit. units.label_of unit };

    ghost due_of = { λ _ unit. units.due_of unit };

    ghost needs_of = { λ _ unit. units.needs_of unit };

    ghost home_rule_of = { λ app unit ranks. units.home_rule_of app.map unit ranks };

    ghost home_of = { λ app unit ranks. units.home_of app.map unit ranks };

    ghost kept_rule_of = { λ app future ranks. units.kept_rule_of app.map future ranks };

    ghost kept_at = { λ app future ranks. units.kept_at app.map future ranks };

    ghost reads_of = { λ app unit. units.reads_of app.commands.operations.items unit };

    ghost counts_of = { λ app unit. units.counts_of app.commands.operations.items unit };

    ghost step_of = { λ app unit given. steps.step_of app.commands.depth app.commands.operations.items unit given };

    ghost is_unit = { λ app unit. IsUnit (planned app.job app.commands.depth app.commands.operations.items app.map app.ranks) unit };

    ghost right_value = { λ app future value. IsRightValue (planned app.job app.commands.depth app.commands.operations.items app.map app.ranks) future value };

    ghost right_cell = { λ app entry cell. IsRightCell (planned app.job app.commands.depth app.commands.operations.items app.map app.ranks) entry cell };

    ghost few_commands = { λ app. laws.few_commands app.commands.operations.items app.commands.is_few };

    ghost result_of_work = { λ app command is. laws.result_of_work app.commands.operations.items command is };

    ghost few_starts = { λ app command ranks _ count. laws.few_starts app.commands.operations.items app.map ranks command count };

    ghost starts_are_spawns = { λ app command ranks _ _. laws.starts_are_spawns app.commands.operations.items command ranks };

    ghost starts_are_right = { λ app command _. laws.start_right (planned app.job app.commands.depth app.commands.operations.items app.map app.ranks) app.is_kept command };

    ghost starts_have_their_needs = { λ app command ranks _ count. laws.starts_have_needs app.commands.operations.items command ranks count.0 };

    ghost starts_with_needs_run_at_zero = { λ app command ranks _ count. laws.at_zero app.commands.operations.items app.map ranks command count };

    ghost starts_name_their_command = { λ app command ranks future _ count names. laws.name_their_command app.commands.operations.items app.map ranks command count future names };

    ghost starts_have_a_due_once = { λ app command ranks future _ count names. laws.due_once app.commands.operations.items app.map ranks command count future names };

    ghost starts_need_others_once = { λ app command ranks future _ count names other. laws.needed_once app.commands.operations.items app.map ranks command count future names other };

    ghost starts_never_need_the_result = { λ app command ranks _ count. laws.result_unneeded app.commands.operations.items app.map ranks command count };

    ghost label_tells_due = { λ _ unit other _ _ same. laws.label_tells_due unit other same };

    ghost label_tells_home = { λ app unit other ranks is more count same. laws.label_tells_home (planned app.job app.commands.depth app.commands.operations.items app.map app.ranks) app.is_kept ranks count unit other is more same };

    ghost home_below = { λ app unit ranks count. laws.home_below app.map unit ranks count };

    ghost home_by_rule = { λ _ _ _ _. refl };

    ghost future_home_below = { λ app future ranks count. laws.kept_below app.map future ranks count };

    ghost future_home_by_rule = { λ _ _ _ _. refl };

    ghost needs_are_kept_at_home = { λ app unit future ranks is count needs. laws.needs_at_home (planned app.job app.commands.depth app.commands.operations.items app.map app.ranks) app.is_kept ranks count unit future is needs };

    ghost few_reads = { λ app unit _. laws.few_reads (planned app.job app.commands.depth app.commands.operations.items app.map app.ranks) app.is_kept unit };

    ghost few_effects = { λ app unit given _ _. laws.few_effects (planned app.job app.commands.depth app.commands.operations.items app.map app.ranks) app.is_kept unit given };

    ghost spawns_have_their_needs = { λ app unit given _ _. laws.spawns_have_needs app.commands.depth app.commands.operations.items unit given };

    ghost spawns_with_needs_stay = { λ app unit given ranks is _ count. laws.needing_stay (planned app.job app.commands.depth app.commands.operations.items app.map app.ranks) app.is_kept ranks count unit given is };

    ghost due_is_seen_to_once = { λ app unit given is _. (laws.keeps (planned app.job app.commands.depth app.commands.operations.items app.map app.ranks) app.is_kept app.ranks app.in_range unit given is).seen_to };

    ghost due_is_needed_never = { λ app unit given is _. (laws.keeps (planned app.job app.commands.depth app.commands.operations.items app.map app.ranks) app.is_kept app.ranks app.in_range unit given is).unneeded };

    ghost only_the_due_is_given = { λ app unit given is _. (laws.keeps (planned app.job app.commands.depth app.commands.operations.items app.map app.ranks) app.is_kept app.ranks app.in_range unit given is).gives };

    ghost spawns_have_a_due_once = { λ app unit given future is _ names other. (laws.keeps (planned app.job app.commands.depth app.commands.operations.items app.map app.ranks) app.is_kept app.ranks app.in_range unit given is).due_once future names other };

    ghost spawns_need_others_once = { λ app unit given future is _ names other. (laws.keeps (planned app.job app.commands.depth app.commands.operations.items app.map app.ranks) app.is_kept app.ranks app.in_range unit given is).needed_once future names other };

    ghost entry_has_one_home = { λ app unit other given more entry ranks is _ also _ count touches again. laws.one_home (planned app.job app.commands.depth app.commands.operations.items app.map app.ranks) app.is_kept ranks count unit other given more entry is also touches again };

    ghost step_is_right = { λ app unit given is right. laws.step_right (planned app.job app.commands.depth app.commands.operations.items app.map app.ranks) app.is_kept unit given is right };

    ghost made_for_ranks = { λ app. app.in_range };

    ghost starts_are_told = { λ _ _ _. refl };

    ghost steps_are_told = { λ _ unit given is right. (unit, given, is, refl, right, refl) };

    ghost allowed_is_a_step = { λ _ _ _ may. may };

    ghost futures_are_told = { λ _ _. refl };

    ghost reads_are_told = { λ _ unit entry is reads. (unit, is, refl, reads) };

    ghost counts_are_told = { λ app unit is. laws.counts_told (planned app.job app.commands.depth app.commands.operations.items app.map app.ranks) app.is_kept unit is };

    ghost reads_are_at_home = { λ app unit entry is reads. laws.reads_at_home (planned app.job app.commands.depth app.commands.operations.items app.map app.ranks) app.is_kept unit entry is reads };

    ghost writes_are_at_home = { λ app unit given entry is _ touches. laws.writes_at_home (planned app.job app.commands.depth app.commands.operations.items app.map app.ranks) app.is_kept app.ranks app.in_range unit given entry is touches };

    fn commands(&self) -> u32 {
        self.commands.number()
    }

    fn kind(&self, command: u32) -> CommandKind {
        self.commands.kind(command)
    }

    fn starts(
        &self,
        alloc: Global,
        command: u32,
        ranks: u32,
    ) -> Result<Effects<Unit, Value, Node>, OutOfMemory> {
        self.commands.starts(alloc, command, ranks)
    }

    fn result(&self, command: u32) -> Option<Label> {
        self.commands.result(command)
    }

    fn label(&self, unit: &Unit) -> Label {
        labels::label(unit)
    }

    fn due(&self, unit: &Unit) -> Option<Label> {
        labels::due(unit)
    }

    fn home(&self, unit: &Unit, ranks: u32) -> u32 {
        homes::home(self.map, unit, ranks)
    }

    fn future_home(&self, future: &Label, ranks: u32) -> u32 {
        homes::future_home(self.map, future, ranks)
    }

    fn reads(&self, unit: &Unit, index: u32) -> Option<CellName> {
        self.commands.reads(unit, index)
    }

    fn counts(&self, unit: &Unit) -> Option<u32> {
        self.commands.counts(unit)
    }

    fn step(
        &self,
        alloc: Global,
        unit: Unit,
        inputs: Inputs<Value, Node>,
    ) -> Result<Effects<Unit, Value, Node>, OutOfMemory>
        ensures { IfOk result (λ e. e ≡ steps.step_of self.now.commands.depth self.now.commands.operations.items unit inputs) }
    {
        self.commands.step(alloc, unit, inputs)
    }

    // None until the runtime can drop; those of the job's plan keep the laws (`drops_are_known` of `haar_lists`).
    fn dropped(&self, _fence: u32, _index: u32) -> Option<u32> {
        None
    }

    fn copy_value(&self, alloc: Global, value: &Value) -> Result<Value, OutOfMemory> {
        match value {
            Value::Done => Ok(Value::Done),
            Value::Sum(sum) => Ok(Value::Sum(*sum)),
            Value::Product(product) => Ok(Value::Product(*product)),
            Value::Lines(lines) => Ok(Value::Lines(lines.copy(alloc)?)),
            Value::Count(count) => Ok(Value::Count(*count)),
            Value::Bad => Ok(Value::Bad),
        }
    }
}
