//! The trait of an application, with its laws.
ghost use Rattle.std.specs.Prelude.{◌≡◌, ◌↔◌, ℕ, ◌-◌, ◌^◌, ◌<◌, ◌≤◌, List, length, Option, Some, IsSome, IfSome, IfOk, slice_get, Contains};
ghost use Rattle.std.specs.List.{AllByRecursion};
ghost use Rattle.app_core.specs.declared.label.Label.{Label as LabelData};
ghost use Rattle.app_core.specs.declared.label.CellName.{CellName as CellNameData};
ghost use Rattle.app_core.specs.declared.effect.Effect.{Effect as EffectData};
ghost use Rattle.app_core.specs.declared.outline.Outline.{Outline as OutlineData};
ghost use Rattle.app_core.specs.Given.{Given};
ghost use Rattle.app_core.specs.Commands.{kind_of, IsCommand, IsWork, IsRankCount};
ghost use Rattle.app_core.specs.Homes.{rank_within};
ghost use Rattle.app_core.specs.Inputs.{Fits, AreRightInputs};
ghost use Rattle.app_core.specs.Effects.{IsRightEffect, IsSpawnedWithNeeds, IsSpawn};
ghost use Rattle.app_core.specs.Outlines.{outlines, IsDueOnceIfNamed, IsDueOnceIfCreated, IsNeededOnceIfCreated, IsNeededNever, IsSeenToOnce, GivesOnly, NeedingRunsAt, Names, Touches};

use crate::OutOfMemory;
use crate::effects::Effects;
use crate::facts::Facts;
use crate::inputs::Inputs;
use crate::label::{CellName, Label};
use crate::outline::CommandKind;
use std::alloc::Global;

/// An application: commands that are cut into units, which run on ranks and give values to futures.
///
/// Each call returns what a definition says that the implementation names: the ghost members above the calls. Those
/// below the calls are its laws, which each implementation proves and generic code may use. A call that takes a
/// command has the condition that it is one from 1 to `commands`, and one that takes a number of ranks that it is
/// from 1 to 16.
///
/// A future is created by the starts of a command, or by a step, that name it in the due or the needs of a unit
/// that they spawn; the due of the step's own unit is not created by that step. `Names` is the relation.
pub trait App: Facts + Sync {
    /// What runs: a piece of a command.
    type Unit: Drop + Send + Sync;

    /// What a future has once it is given.
    type Value: Drop + Send + Sync;

    /// What an entry of a container has.
    type Cell: Copy + Send + Sync;

    /// The starts of a command, where there are so many ranks.
    ghost starting_of: { Self → ℕ → ℕ → List (EffectData Self.Unit Self.Value Self.Cell) };

    /// The future of a command's result.
    ghost result_of: { Self → ℕ → Option LabelData };

    ghost label_of: { Self → Self.Unit → LabelData };

    ghost due_of: { Self → Self.Unit → Option LabelData };

    /// The futures that a unit needs, in order.
    ghost needs_of: { Self → Self.Unit → List LabelData };

    /// The rank that the application's own rule names for a unit, if it names one.
    ghost home_rule_of: { Self → Self.Unit → ℕ → Option ℕ };

    /// The rank at which a unit runs, where there are so many ranks.
    ghost home_of: { Self → Self.Unit → ℕ → ℕ };

    /// The rank that the application's own rule names for a future, if it names one.
    ghost kept_rule_of: { Self → LabelData → ℕ → Option ℕ };

    /// The rank that keeps a future, where there are so many ranks.
    ghost kept_at: { Self → LabelData → ℕ → ℕ };

    ghost reads_of: { Self → Self.Unit → List CellNameData };

    ghost counts_of: { Self → Self.Unit → Option ℕ };

    ghost step_of: { Self → Self.Unit → Given Self.Value Self.Cell → List (EffectData Self.Unit Self.Value Self.Cell) };

    /// The units of the application.
    ghost is_unit: { Self → Self.Unit → Type 0 };

    /// The right values of a future.
    ghost right_value: { Self → LabelData → Self.Value → Type 0 };

    /// The right cells of an entry.
    ghost right_cell: { Self → CellNameData → Self.Cell → Type 0 };

    /// How many commands there are. They are numbered from 1.
    fn commands(&self) -> u32
        ensures { result ≡ length (Self.kinds_of self.now) };

    /// Whether a command is work or a fence.
    fn kind(&self, command: u32) -> CommandKind
        requires { IsCommand (Self.kinds_of self.now) command }
        ensures { kind_of (Self.kinds_of self.now) command ≡ Some result };

    /// The spawns of a work command, which the main of rank 0 makes. `OutOfMemory` comes only when memory is refused.
    fn starts(
        &self,
        alloc: Global,
        command: u32,
        ranks: u32,
    ) -> Result<Effects<Self::Unit, Self::Value, Self::Cell>, OutOfMemory>
        requires command { IsCommand (Self.kinds_of self.now) command }
        requires ranks { IsRankCount ranks }
        ensures { IfOk result (λ e. e ≡ starting_of self.now command ranks) };

    /// The future of a command's result. None exactly for a fence (`result_of_work`).
    fn result(&self, command: u32) -> Option<Label>
        requires { IsCommand (Self.kinds_of self.now) command }
        ensures { result ≡ result_of self.now command };

    /// The name of a unit. Units of the application with one label have the same due and the same home.
    fn label(&self, unit: &Self::Unit) -> Label
        ensures { result ≡ label_of self.now unit.now };

    /// The one future that a unit must see to, if there is one.
    fn due(&self, unit: &Self::Unit) -> Option<Label>
        ensures { result ≡ due_of self.now unit.now };

    /// The rank where a unit runs, below `ranks`.
    fn home(&self, unit: &Self::Unit, ranks: u32) -> u32
        requires { IsRankCount ranks }
        ensures { result ≡ home_of self.now unit.now ranks };

    /// The rank that keeps a future, below `ranks`.
    fn future_home(&self, future: &Label, ranks: u32) -> u32
        requires { IsRankCount ranks }
        ensures { result ≡ kept_at self.now future.now ranks };

    /// The entries that a unit reads, all at its home, by an index from 0. None exactly past the last.
    fn reads(&self, unit: &Self::Unit, index: u32) -> Option<CellName>
        ensures { result ≡ slice_get (reads_of self.now unit.now) index };

    /// The version whose entries at the unit's home are counted into the size of its inputs before its step. Where
    /// there is none, that size is 0.
    fn counts(&self, unit: &Self::Unit) -> Option<u32>
        ensures { result ≡ counts_of self.now unit.now };

    /// The effects of a unit on its inputs, which have a value for each need and a cell for each read entry, and
    /// needn't be right. `OutOfMemory` comes only when memory is refused, and drops the unit and the inputs.
    fn step(
        &self,
        alloc: Global,
        unit: Self::Unit,
        inputs: Inputs<Self::Value, Self::Cell>,
    ) -> Result<Effects<Self::Unit, Self::Value, Self::Cell>, OutOfMemory>
        requires unit { is_unit self.now unit }
        requires values { length inputs.values ≡ length (needs_of self.now unit) }
        requires cells { length inputs.cells ≡ length (reads_of self.now unit) }
        ensures { IfOk result (λ e. e ≡ step_of self.now unit inputs) };

    /// The versions that are dropped at a fence, by an index from 0. None exactly past the last.
    fn dropped(&self, fence: u32, index: u32) -> Option<u32>
        ensures { result ≡ slice_get (Self.dropped_of self.now fence) index };

    /// An equal value. `OutOfMemory` comes only when memory is refused.
    fn copy_value(&self, alloc: Global, value: &Self::Value) -> Result<Self::Value, OutOfMemory>
        ensures { IfOk result (λ v. v ≡ value.now) };

    // Commands.

    /// The number of every command, and that of the fence at the end, fits.
    ghost few_commands: { (app : Self) → length (Self.kinds_of app) < 2 ^ 32 - 1 };

    /// Exactly the work commands have a result.
    ghost result_of_work: { (app : Self) (command : ℕ) → IsCommand (Self.kinds_of app) command
        → (IsSome (result_of app command) ↔ IsWork (Self.kinds_of app) command) };

    ghost few_starts: { (app : Self) (command ranks : ℕ)
        → IsCommand (Self.kinds_of app) command → IsRankCount ranks
        → length (starting_of app command ranks) ≤ 2 ^ 16 };

    ghost starts_are_spawns: { (app : Self) (command ranks : ℕ)
        → IsWork (Self.kinds_of app) command → IsRankCount ranks
        → AllByRecursion IsSpawn (starting_of app command ranks) };

    /// Where there are as many ranks as the application is made for, each unit that the starts spawn is one of the
    /// application.
    ghost starts_are_right: { (app : Self) (command : ℕ) → IsCommand (Self.kinds_of app) command
        → AllByRecursion (IsRightEffect (right_value app) (right_cell app) (is_unit app)) (starting_of app command (Self.ranks_of app)) };

    /// The starts spawn each unit with just its needs, in their order.
    ghost starts_have_their_needs: { (app : Self) (command ranks : ℕ)
        → IsCommand (Self.kinds_of app) command → IsRankCount ranks
        → AllByRecursion (IsSpawnedWithNeeds (needs_of app)) (starting_of app command ranks) };

    /// A start with needs runs at rank 0.
    ghost starts_with_needs_run_at_zero: { (app : Self) (command ranks : ℕ)
        → IsCommand (Self.kinds_of app) command → IsRankCount ranks
        → AllByRecursion (NeedingRunsAt 0) (outlines (label_of app) (due_of app) (home_of app) (kept_at app)
        ranks (starting_of app command ranks)) };

    /// A future that the starts create has the number of the command.
    ghost starts_name_their_command: { (app : Self) (command ranks : ℕ) (future : LabelData)
        → IsCommand (Self.kinds_of app) command → IsRankCount ranks
        → Names (outlines (label_of app) (due_of app) (home_of app) (kept_at app)
        ranks (starting_of app command ranks)) future
        → future.command ≡ command };

    /// A future that the starts create is the due of exactly one of them.
    ghost starts_have_a_due_once: { (app : Self) (command ranks : ℕ) (future : LabelData)
        → IsCommand (Self.kinds_of app) command → IsRankCount ranks
        → IsDueOnceIfNamed future (outlines (label_of app) (due_of app) (home_of app) (kept_at app)
        ranks (starting_of app command ranks)) };

    /// A future that the starts create, other than the command's result, is needed by exactly one of them.
    ghost starts_need_others_once: { (app : Self) (command ranks : ℕ) (future : LabelData)
        → IsCommand (Self.kinds_of app) command → IsRankCount ranks
        → IsNeededOnceIfCreated (result_of app command) future (outlines (label_of app) (due_of app) (home_of app) (kept_at app)
        ranks (starting_of app command ranks)) };

    /// None of the starts needs the command's result.
    ghost starts_never_need_the_result: { (app : Self) (command ranks : ℕ)
        → IsCommand (Self.kinds_of app) command → IsRankCount ranks
        → IfSome (result_of app command) (λ future. IsNeededNever future (outlines (label_of app) (due_of app) (home_of app) (kept_at app)
        ranks (starting_of app command ranks))) };

    // Units.

    /// Units with one label have one due.
    ghost label_tells_due: { (app : Self) (unit other : Self.Unit)
        → is_unit app unit → is_unit app other
        → label_of app unit ≡ label_of app other → due_of app unit ≡ due_of app other };

    /// Units with one label have one home.
    ghost label_tells_home: { (app : Self) (unit other : Self.Unit) (ranks : ℕ)
        → is_unit app unit → is_unit app other → IsRankCount ranks
        → label_of app unit ≡ label_of app other → home_of app unit ranks ≡ home_of app other ranks };

    ghost home_below: { (app : Self) (unit : Self.Unit) (ranks : ℕ)
        → IsRankCount ranks → home_of app unit ranks < ranks };

    /// A unit runs at the rank that the application's rule names, and at rank 0 where it names none below `ranks`.
    ghost home_by_rule: { (app : Self) (unit : Self.Unit) (ranks : ℕ) → IsRankCount ranks
        → home_of app unit ranks ≡ rank_within ranks (home_rule_of app unit ranks) };

    ghost future_home_below: { (app : Self) (future : LabelData) (ranks : ℕ)
        → IsRankCount ranks → kept_at app future ranks < ranks };

    /// A future is kept at the rank that the application's rule names, and at rank 0 where it names none below `ranks`.
    ghost future_home_by_rule: { (app : Self) (future : LabelData) (ranks : ℕ) → IsRankCount ranks
        → kept_at app future ranks ≡ rank_within ranks (kept_rule_of app future ranks) };

    /// A future is kept where the unit that needs it runs.
    ghost needs_are_kept_at_home: { (app : Self) (unit : Self.Unit) (future : LabelData) (ranks : ℕ)
        → is_unit app unit → IsRankCount ranks
        → Contains (needs_of app unit) future → kept_at app future ranks ≡ home_of app unit ranks };

    ghost few_reads: { (app : Self) (unit : Self.Unit)
        → is_unit app unit → length (reads_of app unit) ≤ 16 };

    // Steps, on whatever inputs fit the unit.

    ghost few_effects: { (app : Self) (unit : Self.Unit) (given : Given Self.Value Self.Cell)
        → is_unit app unit → Fits (needs_of app unit) (reads_of app unit) given
        → length (step_of app unit given) ≤ 2 ^ 16 };

    /// A step spawns each unit with just its needs, in their order.
    ghost spawns_have_their_needs: { (app : Self) (unit : Self.Unit) (given : Given Self.Value Self.Cell)
        → is_unit app unit → Fits (needs_of app unit) (reads_of app unit) given
        → AllByRecursion (IsSpawnedWithNeeds (needs_of app)) (step_of app unit given) };

    /// A unit with needs runs where the unit that spawns it runs.
    ghost spawns_with_needs_stay: { (app : Self) (unit : Self.Unit) (given : Given Self.Value Self.Cell) (ranks : ℕ)
        → is_unit app unit → Fits (needs_of app unit) (reads_of app unit) given → IsRankCount ranks
        → AllByRecursion (NeedingRunsAt (home_of app unit ranks)) (outlines (label_of app) (due_of app) (home_of app) (kept_at app)
        ranks (step_of app unit given)) };

    /// A unit with a due gives it once, or hands it to exactly one unit that it spawns.
    ghost due_is_seen_to_once: { (app : Self) (unit : Self.Unit) (given : Given Self.Value Self.Cell)
        → is_unit app unit → Fits (needs_of app unit) (reads_of app unit) given
        → IfSome (due_of app unit) (λ due. IsSeenToOnce due (outlines (label_of app) (due_of app) (home_of app) (kept_at app)
        (Self.ranks_of app) (step_of app unit given))) };

    /// No unit that a step spawns needs the due of the step's unit.
    ghost due_is_needed_never: { (app : Self) (unit : Self.Unit) (given : Given Self.Value Self.Cell)
        → is_unit app unit → Fits (needs_of app unit) (reads_of app unit) given
        → IfSome (due_of app unit) (λ due. IsNeededNever due (outlines (label_of app) (due_of app) (home_of app) (kept_at app)
        (Self.ranks_of app) (step_of app unit given))) };

    /// A step gives nothing but the due of its unit.
    ghost only_the_due_is_given: { (app : Self) (unit : Self.Unit) (given : Given Self.Value Self.Cell)
        → is_unit app unit → Fits (needs_of app unit) (reads_of app unit) given
        → AllByRecursion (GivesOnly (due_of app unit)) (outlines (label_of app) (due_of app) (home_of app) (kept_at app)
        (Self.ranks_of app) (step_of app unit given)) };

    /// A future that a step creates is the due of exactly one unit that it spawns.
    ghost spawns_have_a_due_once: { (app : Self) (unit : Self.Unit) (given : Given Self.Value Self.Cell) (future : LabelData)
        → is_unit app unit → Fits (needs_of app unit) (reads_of app unit) given
        → IsDueOnceIfCreated (due_of app unit) future (outlines (label_of app) (due_of app) (home_of app) (kept_at app)
        (Self.ranks_of app) (step_of app unit given)) };

    /// A future that a step creates is needed by exactly one unit that it spawns.
    ghost spawns_need_others_once: { (app : Self) (unit : Self.Unit) (given : Given Self.Value Self.Cell) (future : LabelData)
        → is_unit app unit → Fits (needs_of app unit) (reads_of app unit) given
        → IsNeededOnceIfCreated (due_of app unit) future (outlines (label_of app) (due_of app) (home_of app) (kept_at app)
        (Self.ranks_of app) (step_of app unit given)) };

    /// Any two units that put or erase one entry, on whatever inputs, run at one rank.
    ghost entry_has_one_home: { (app : Self) (unit other : Self.Unit) (given more : Given Self.Value Self.Cell) (entry : CellNameData) (ranks : ℕ)
        → is_unit app unit → Fits (needs_of app unit) (reads_of app unit) given
        → is_unit app other → Fits (needs_of app other) (reads_of app other) more
        → IsRankCount ranks
        → Touches (outlines (label_of app) (due_of app) (home_of app) (kept_at app)
        ranks (step_of app unit given)) entry
        → Touches (outlines (label_of app) (due_of app) (home_of app) (kept_at app)
        ranks (step_of app other more)) entry
        → home_of app unit ranks ≡ home_of app other ranks };

    /// On right inputs each give has a right value, each put a right cell, and each spawned unit is one of the
    /// application.
    ghost step_is_right: { (app : Self) (unit : Self.Unit) (given : Given Self.Value Self.Cell)
        → is_unit app unit
        → AreRightInputs (right_value app) (right_cell app) (Self.right_size app)
        (needs_of app unit) (reads_of app unit) (counts_of app unit) (home_of app unit (Self.ranks_of app)) given
        → AllByRecursion (IsRightEffect (right_value app) (right_cell app) (is_unit app)) (step_of app unit given) };

    // What the facts tell.

    ghost made_for_ranks: { (app : Self) → IsRankCount (Self.ranks_of app) };

    ghost starts_are_told: { (app : Self) (command : ℕ) → IsCommand (Self.kinds_of app) command
        → Self.starts_of app command ≡ outlines (label_of app) (due_of app) (home_of app) (kept_at app)
        (Self.ranks_of app) (starting_of app command (Self.ranks_of app)) };

    /// What a unit does on inputs that are right for it is allowed by its label.
    ghost steps_are_told: { (app : Self) (unit : Self.Unit) (given : Given Self.Value Self.Cell)
        → is_unit app unit
        → AreRightInputs (right_value app) (right_cell app) (Self.right_size app)
        (needs_of app unit) (reads_of app unit) (counts_of app unit) (home_of app unit (Self.ranks_of app)) given
        → Self.may_do app (label_of app unit) (outlines (label_of app) (due_of app) (home_of app) (kept_at app)
        (Self.ranks_of app) (step_of app unit given)) };

    /// What a label allows is done by a unit of the application with this label, on inputs that are right for it.
    ghost allowed_is_a_step: { (app : Self) (label : LabelData) (allowed : List OutlineData) → Self.may_do app label allowed
        → (unit : Self.Unit) × (given : Given Self.Value Self.Cell) × is_unit app unit × (label_of app unit ≡ label)
        × AreRightInputs (right_value app) (right_cell app) (Self.right_size app)
        (needs_of app unit) (reads_of app unit) (counts_of app unit) (home_of app unit (Self.ranks_of app)) given
        × (allowed ≡ outlines (label_of app) (due_of app) (home_of app) (kept_at app)
        (Self.ranks_of app) (step_of app unit given)) };

    ghost futures_are_told: { (app : Self) (future : LabelData)
        → Self.future_home_of app future ≡ kept_at app future (Self.ranks_of app) };

    ghost reads_are_told: { (app : Self) (unit : Self.Unit) (entry : CellNameData) → is_unit app unit
        → Contains (reads_of app unit) entry → Self.may_read app (label_of app unit) entry };

    ghost counts_are_told: { (app : Self) (unit : Self.Unit)
        → is_unit app unit → IfSome (counts_of app unit) (λ version. Self.may_count app (label_of app unit) version) };

    /// A unit reads entries that lie at its home.
    ghost reads_are_at_home: { (app : Self) (unit : Self.Unit) (entry : CellNameData) → is_unit app unit
        → Contains (reads_of app unit) entry → Self.entry_home_of app entry ≡ home_of app unit (Self.ranks_of app) };

    /// A unit puts and erases entries that lie at its home.
    ghost writes_are_at_home: { (app : Self) (unit : Self.Unit) (given : Given Self.Value Self.Cell) (entry : CellNameData)
        → is_unit app unit → Fits (needs_of app unit) (reads_of app unit) given
        → Touches (outlines (label_of app) (due_of app) (home_of app) (kept_at app)
        (Self.ranks_of app) (step_of app unit given)) entry
        → Self.entry_home_of app entry ≡ home_of app unit (Self.ranks_of app) };
}
