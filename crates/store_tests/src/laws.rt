//! The application on lists of events.
ghost use Rattle.std.specs.Prelude.{◌≡◌, []};
ghost use Rattle.store_tests.specs.Store as store;
ghost use Rattle.store_tests.specs.StoreLaws as laws;

use crate::store::StoreApp;
use event_laws::ListLaws;

impl ListLaws for StoreApp {
    ghost writer_of = { λ _ version. laws.writer_of version };

    ghost holds_of = { λ _ _ _. [] };

    ghost total_of = { λ _ _. (0, 0) };

    ghost is_sound = { λ _ command. laws.IsSound command };

    ghost spawns_apart = { λ _ task_effects log workers run. laws.spawns_apart workers task_effects log run };

    ghost one_bringer = { λ _ task_effects log workers run. laws.bringer_is_one workers task_effects log run };

    ghost puts_apart = { λ _ task_effects log workers run. laws.puts_apart workers task_effects log run };

    ghost erases_apart = { λ _ task_effects log workers run. laws.erases_apart workers task_effects log run };

    ghost erases_put = { λ _ task_effects log workers run. laws.erased_was_put workers task_effects log run };

    ghost bins_hold = { λ _ _ _ _ _ _ _ _ _ _ _ _ sound _. absurd sound };

    ghost sizes_are_right = { λ _ _ _ _ _ _ sound. absurd sound };

    ghost other_sizes_are_right = { λ _ _ _ _ _ _. tt };

    ghost totals_are_told = { λ _ _ log before workers x r run has sound. absurd (laws.totals_are_told workers log before x r run.legal has sound) };

    ghost reads_are_held = { λ _ _ _ _ reads _ _. absurd reads };

    ghost counts_come_after = { λ _ _ _ counts. absurd counts };

    ghost starts_are_of_the_command = { λ _ command index start unit work at named. laws.starts_are_of_the_command command index start unit work at named };

    ghost spawns_stay_in_their_command = { λ _ label outlines index spawn unit may at named. laws.spawns_stay_in_their_command label outlines index spawn unit may at named };

    ghost writes_are_of_the_command = { λ _ label outlines entry may touches. laws.writes_are_of_the_command label outlines entry may touches };

    ghost dropped_is_written = { λ _ _ version drops. absurd (store.none_contained version drops) };

    ghost drops_come_once = { λ _ _ _ index _ version at _. absurd (laws.none_dropped index version at) };

    ghost dropped_stays_unread = { λ _ _ _ _ _ reads. absurd reads };

    ghost dropped_stays_uncounted = { λ _ _ _ _ _ counts. absurd counts };
}
