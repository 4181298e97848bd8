//! The laws of the application of a job on lists of events.
//!
//! A version is written by the command of its number. What the ranks hold of it, and what the fences count, are those of the
//! job's model, by the job's owner map and number of ranks.
ghost use Rattle.haar_lists.specs.Lists as lists;
ghost use Rattle.haar_app.specs.Planning.{planned};
ghost use Rattle.haar_app.specs.KeptPlans.{planned_job};
ghost use Rattle.haar_app.specs.AppListLaws as laws;

use crate::haar_app::HaarApp;
use event_laws::ListLaws;

impl ListLaws for HaarApp {
    ghost writer_of = { λ app version. lists.writer (planned app.job app.commands.depth app.commands.operations.items app.map app.ranks) version };

    ghost holds_of = { λ app rank version. lists.held (planned app.job app.commands.depth app.commands.operations.items app.map app.ranks) rank version };

    ghost total_of = { λ app fence. lists.total (planned app.job app.commands.depth app.commands.operations.items app.map app.ranks) fence };

    ghost is_sound = { λ app command. lists.IsSound (planned app.job app.commands.depth app.commands.operations.items app.map app.ranks) command };

    ghost spawns_apart = { λ app task_effects log workers run. laws.spawns_apart (planned app.job app.commands.depth app.commands.operations.items app.map app.ranks) (planned_job (planned app.job app.commands.depth app.commands.operations.items app.map app.ranks) app.is_kept) task_effects log workers run };

    ghost one_bringer = { λ app task_effects log workers run. laws.one_bringer (planned app.job app.commands.depth app.commands.operations.items app.map app.ranks) (planned_job (planned app.job app.commands.depth app.commands.operations.items app.map app.ranks) app.is_kept) task_effects log workers run };

    ghost puts_apart = { λ app task_effects log workers run. laws.puts_apart (planned app.job app.commands.depth app.commands.operations.items app.map app.ranks) (planned_job (planned app.job app.commands.depth app.commands.operations.items app.map app.ranks) app.is_kept) task_effects log workers run };

    ghost erases_apart = { λ app task_effects log workers run. laws.erases_apart (planned app.job app.commands.depth app.commands.operations.items app.map app.ranks) (planned_job (planned app.job app.commands.depth app.commands.operations.items app.map app.ranks) app.is_kept) task_effects log workers run };

    ghost erases_put = { λ app task_effects log workers run. laws.erases_put (planned app.job app.commands.depth app.commands.operations.items app.map app.ranks) (planned_job (planned app.job app.commands.depth app.commands.operations.items app.map app.ranks) app.is_kept) task_effects log workers run };

    ghost bins_hold = { λ app task_effects log before workers x r version command run has writes sound early. laws.bins_hold (planned app.job app.commands.depth app.commands.operations.items app.map app.ranks) (planned_job (planned app.job app.commands.depth app.commands.operations.items app.map app.ranks) app.is_kept) task_effects log before workers x r version command run has writes sound early };

    ghost sizes_are_right = { λ app rank version _ _ _ _. laws.sizes_right (planned app.job app.commands.depth app.commands.operations.items app.map app.ranks) (planned_job (planned app.job app.commands.depth app.commands.operations.items app.map app.ranks) app.is_kept) rank version };

    ghost other_sizes_are_right = { λ app rank version number _ none. laws.other_sizes (planned app.job app.commands.depth app.commands.operations.items app.map app.ranks) (planned_job (planned app.job app.commands.depth app.commands.operations.items app.map app.ranks) app.is_kept) rank version number none };

    ghost totals_are_told = { λ app task_effects log before workers x r run has sound. laws.totals_told (planned app.job app.commands.depth app.commands.operations.items app.map app.ranks) (planned_job (planned app.job app.commands.depth app.commands.operations.items app.map app.ranks) app.is_kept) task_effects log before workers x r run has sound };

    ghost reads_are_held = { λ app label entry command may writes sound. laws.reads_held (planned app.job app.commands.depth app.commands.operations.items app.map app.ranks) (planned_job (planned app.job app.commands.depth app.commands.operations.items app.map app.ranks) app.is_kept) label entry command may writes sound };

    ghost counts_come_after = { λ app label version may. laws.counts_come_after (planned app.job app.commands.depth app.commands.operations.items app.map app.ranks) (planned_job (planned app.job app.commands.depth app.commands.operations.items app.map app.ranks) app.is_kept) label version may };

    ghost starts_are_of_the_command = { λ app command index start unit work at is. laws.starts_stay (planned app.job app.commands.depth app.commands.operations.items app.map app.ranks) (planned_job (planned app.job app.commands.depth app.commands.operations.items app.map app.ranks) app.is_kept) command index start unit work at is };

    ghost spawns_stay_in_their_command = { λ app label outlines index spawn unit may at is. laws.spawns_stay (planned app.job app.commands.depth app.commands.operations.items app.map app.ranks) (planned_job (planned app.job app.commands.depth app.commands.operations.items app.map app.ranks) app.is_kept) label outlines index spawn unit may at is };

    ghost writes_are_of_the_command = { λ app label outlines entry may touches. laws.writes_stay (planned app.job app.commands.depth app.commands.operations.items app.map app.ranks) (planned_job (planned app.job app.commands.depth app.commands.operations.items app.map app.ranks) app.is_kept) label outlines entry may touches };

    ghost dropped_is_written = { λ _ _ version dropped. laws.nothing_dropped version dropped };

    ghost drops_come_once = { λ _ _ _ index _ version dropped _. laws.nothing_at index version dropped };

    ghost dropped_stays_unread = { λ _ _ _ entry dropped _. laws.nothing_dropped entry.version dropped };

    ghost dropped_stays_uncounted = { λ _ _ _ version dropped _. laws.nothing_dropped version dropped };
}
