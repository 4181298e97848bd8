//! The laws of an application on lists of events.
ghost use Rattle.std.specs.Prelude.{◌≡◌, ℕ, ◌<◌, List, length, Option, Some, slice_get, Contains};
ghost use Rattle.app_core.specs.declared.label.Label.{Label as LabelData};
ghost use Rattle.app_core.specs.declared.label.CellName.{CellName as CellNameData};
ghost use Rattle.app_core.specs.declared.outline.Outline.{Outline as OutlineData};
ghost use Rattle.app_core.specs.Commands.{IsWork};
ghost use Rattle.app_core.specs.Outlines.{Touches};
ghost use Rattle.app_core.specs.declared.outline.Outline.TheVariants.{Put as Puts, Erase as Erases};
ghost use Rattle.event_lists.specs.declared.mark.Mark.{Mark as MarkData};
ghost use Rattle.event_laws.specs.Follows.{TaskEffects};
ghost use Rattle.event_laws.specs.AppRuns.{IsRunOf};
ghost use Rattle.event_lists.specs.declared.receipt.Receipt.{Receipt as ReceiptData};
ghost use Rattle.event_laws.specs.Trees.{unit_of};
ghost use Rattle.event_laws.specs.Held.{HasReceipt, IsBefore, ComesAfter, BinsHold, AreDifferent, AllSound, HasNoWriter, all_told};
ghost use Rattle.event_laws.specs.Apart.{spawned, Apart, HasOneBringer, EffectsApart, ErasesPut};

use app_core::Facts;

/// What is said of an application on the lists of events that follow it, beside its other laws.
///
/// Each law speaks of every legal list, of any number of workers, that follows the application with some task_effects: the
/// effects of the tasks that were begun. The trait has no calls.
pub trait ListLaws: Facts {
    /// The command that writes a version, or none.
    ghost writer_of: { Self → ℕ → Option ℕ };

    /// For a rank and a version: the places of the entries of the version that the rank holds.
    ghost holds_of: { Self → ℕ → ℕ → List ℕ };

    /// The numbers of messages and of tasks, at all ranks, up to the fence of a number.
    ghost total_of: { Self → ℕ → ℕ × ℕ };

    /// Neither the command of a number nor an earlier one overflowed.
    ghost is_sound: { Self → ℕ → Type 0 };

    /// No two spawns have one unit label.
    ghost spawns_apart: { (app : Self) (task_effects : TaskEffects) (log : List MarkData) (workers : ℕ)
        → IsRunOf Self.Facts app workers task_effects log
        → Apart (spawned log) };

    /// No label is created by two bringers.
    ghost one_bringer: { (app : Self) (task_effects : TaskEffects) (log : List MarkData) (workers : ℕ)
        → IsRunOf Self.Facts app workers task_effects log
        → HasOneBringer log };

    /// Among the effects of all begun tasks, carried out or not, no entry has two puts.
    ghost puts_apart: { (app : Self) (task_effects : TaskEffects) (log : List MarkData) (workers : ℕ)
        → IsRunOf Self.Facts app workers task_effects log
        → EffectsApart (λ c. Puts c) task_effects };

    /// Among the effects of all begun tasks, carried out or not, no entry has two erases.
    ghost erases_apart: { (app : Self) (task_effects : TaskEffects) (log : List MarkData) (workers : ℕ)
        → IsRunOf Self.Facts app workers task_effects log
        → EffectsApart (λ c. Erases c) task_effects };

    /// An entry that a begun task erases was put before that task was taken.
    ghost erases_put: { (app : Self) (task_effects : TaskEffects) (log : List MarkData) (workers : ℕ)
        → IsRunOf Self.Facts app workers task_effects log
        → ErasesPut task_effects log };

    /// At the receipt of a fence the bins hold, of each version that a sound command before the fence writes, just the
    /// entries that `holds_of` names; and they hold them from then on.
    ghost bins_hold: { (app : Self) (task_effects : TaskEffects) (log before : List MarkData) (workers : ℕ) (x : MarkData) (r : ReceiptData) (version command : ℕ)
        → IsRunOf Self.Facts app workers task_effects log
        → HasReceipt log before x r
        → Self.writer_of app version ≡ Some command → Self.is_sound app command → IsBefore (Self.kinds_of app) command r.fence
        → BinsHold (Self.ranks_of app) (Self.holds_of app) version before × BinsHold (Self.ranks_of app) (Self.holds_of app) version log };

    /// Of a version that a sound command writes, the number of the places that a rank holds is a right size, and no two
    /// of them are equal.
    ghost sizes_are_right: { (app : Self) (rank version command : ℕ)
        → rank < Self.ranks_of app → Self.writer_of app version ≡ Some command → Self.is_sound app command
        → Self.right_size app rank version (length (Self.holds_of app rank version)) × AreDifferent (Self.holds_of app rank version) };

    /// Of a version that no sound command writes, every number is a right size.
    ghost other_sizes_are_right: { (app : Self) (rank version number : ℕ)
        → rank < Self.ranks_of app → HasNoWriter (Self.writer_of app) (Self.is_sound app) version
        → Self.right_size app rank version number };

    /// Where all commands before a fence are sound, the rows of its receipt sum up to the numbers of messages and tasks
    /// that `total_of` names.
    ghost totals_are_told: { (app : Self) (task_effects : TaskEffects) (log before : List MarkData) (workers : ℕ) (x : MarkData) (r : ReceiptData)
        → IsRunOf Self.Facts app workers task_effects log
        → HasReceipt log before x r → AllSound (Self.kinds_of app) (Self.is_sound app) r.fence
        → all_told r ≡ Self.total_of app r.fence };

    /// An entry that a unit may read is held at its home, where a sound command writes its version.
    ghost reads_are_held: { (app : Self) (label : LabelData) (entry : CellNameData) (command : ℕ) → Self.may_read app label entry
        → Self.writer_of app entry.version ≡ Some command → Self.is_sound app command
        → Contains (Self.holds_of app (Self.entry_home_of app entry) entry.version) entry.place };

    /// A version whose entries a unit may count is written by a command before a fence which the unit's command comes
    /// after.
    ghost counts_come_after: { (app : Self) (label : LabelData) (version : ℕ) → Self.may_count app label version
        → ComesAfter (Self.kinds_of app) (Self.writer_of app version) label.command };

    /// A unit that a command starts has the command in its label.
    ghost starts_are_of_the_command: { (app : Self) (command index : ℕ) (start : OutlineData) (unit : LabelData) → IsWork (Self.kinds_of app) command
        → slice_get (Self.starts_of app command) index ≡ Some start → unit_of start ≡ Some unit → unit.command ≡ command };

    /// A unit that a step spawns has in its label the command of the spawner.
    ghost spawns_stay_in_their_command: { (app : Self) (label : LabelData) (outlines : List OutlineData) (index : ℕ) (spawn : OutlineData) (unit : LabelData)
        → Self.may_do app label outlines → slice_get outlines index ≡ Some spawn → unit_of spawn ≡ Some unit → unit.command ≡ label.command };

    /// The version of an entry that a unit puts or erases is written by the command in the unit's label.
    ghost writes_are_of_the_command: { (app : Self) (label : LabelData) (outlines : List OutlineData) (entry : CellNameData)
        → Self.may_do app label outlines → Touches outlines entry → Self.writer_of app entry.version ≡ Some label.command };

    /// A version that is dropped at a fence is written by a command before the fence.
    ghost dropped_is_written: { (app : Self) (fence version : ℕ) → Contains (Self.dropped_of app fence) version → (command : ℕ)
        × (Self.writer_of app version ≡ Some command) × IsBefore (Self.kinds_of app) command fence };

    /// A version is dropped at one fence alone, and once.
    ghost drops_come_once: { (app : Self) (fence other index place version : ℕ)
        → slice_get (Self.dropped_of app fence) index ≡ Some version → slice_get (Self.dropped_of app other) place ≡ Some version
        → (fence ≡ other) × (index ≡ place) };

    /// A unit that may read an entry of a version that is dropped at a fence is of a command before the fence.
    ghost dropped_stays_unread: { (app : Self) (fence : ℕ) (label : LabelData) (entry : CellNameData) → Contains (Self.dropped_of app fence) entry.version
        → Self.may_read app label entry → IsBefore (Self.kinds_of app) label.command fence };

    /// And so is one that may count the entries of such a version.
    ghost dropped_stays_uncounted: { (app : Self) (fence : ℕ) (label : LabelData) (version : ℕ) → Contains (Self.dropped_of app fence) version
        → Self.may_count app label version → IsBefore (Self.kinds_of app) label.command fence };
}
