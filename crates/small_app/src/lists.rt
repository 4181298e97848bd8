//! The application on lists of events.
ghost use Rattle.std.specs.Prelude.{◌≡◌, [], ◌∷◌};
ghost use Rattle.small_app.specs.SmallUnits as units;
ghost use Rattle.small_app.specs.SmallComes as comes;
ghost use Rattle.small_app.specs.SmallHeld as laws;

use crate::app::SmallApp;
use event_laws::ListLaws;

impl ListLaws for SmallApp {
    ghost writer_of = { λ _ version. units.writer_of version };

    ghost holds_of = { λ app rank version. units.holds app.ranks rank version };

    ghost total_of = { λ app fence. units.total_of app.ranks fence };

    ghost is_sound = { λ _ command. units.IsSound command };

    ghost spawns_apart = { λ app task_effects log workers run. laws.spawns_apart app.ranks task_effects log workers run };

    ghost one_bringer = { λ app task_effects log workers run. laws.bringer_is_one app.ranks task_effects log workers run };

    ghost puts_apart = { λ app task_effects log workers run. laws.puts_apart app.ranks task_effects log workers run };

    ghost erases_apart = { λ app task_effects log workers run. laws.erases_apart app.ranks task_effects log workers run };

    ghost erases_put = { λ app task_effects log workers run. laws.erased_was_put app.ranks task_effects log workers run };

    ghost bins_hold = { λ app task_effects log before workers x r version command run has writes sound early.
        laws.bins_hold app.ranks task_effects log before workers x r version command run has writes sound early };

    ghost sizes_are_right = { λ app rank version command _ writes sound. laws.sizes_are_right app.ranks rank version command writes sound };

    ghost other_sizes_are_right = { λ app rank version number _ none. laws.other_sizes_are_right app.ranks rank version number none };

    ghost totals_are_told = { λ app task_effects log before workers x r run has sound. laws.totals_are_told app.ranks task_effects log before workers x r run has sound };

    ghost reads_are_held = { λ app label entry _ reads _ _. laws.reads_are_held app.ranks label entry reads };

    ghost counts_come_after = { λ _ label version counts. laws.counts_come_after label version counts };

    ghost starts_are_of_the_command = { λ app command index start unit work at named. comes.of_command app.ranks command index start unit work at named };

    ghost spawns_stay_in_their_command = { λ app label outlines index spawn unit may at named. comes.in_command app.ranks label outlines index spawn unit may at named };

    ghost writes_are_of_the_command = { λ app label outlines entry may touches. laws.writes_are_of_the_command app.ranks label outlines entry may touches };

    ghost dropped_is_written = { λ _ fence version drops. laws.dropped_is_written fence version drops };

    ghost drops_come_once = { λ _ fence other index place version at again. laws.drops_come_once fence other index place version at again };

    ghost dropped_stays_unread = { λ _ fence label entry drops reads. laws.dropped_stays_unread fence entry.version label entry drops reads };

    ghost dropped_stays_uncounted = { λ _ fence label version drops counts. laws.dropped_stays_uncounted fence version label drops counts };
}

/// The numbers of messages and tasks, by hand. With four ranks the first command has five tasks and sends five messages:
/// the two leaves, what they give, and the unit that erases the right entry. The second has three tasks and sends five
/// more: the units that read and count, what they give, and the last result. With one rank nothing is sent. Nothing is
/// said of the last one.
pub fn totals_are_those_by_hand()
    ensures first_of_four { units.total_of 4 1 ≡ (5, 5) }
    ensures both_of_four { units.total_of 4 2 ≡ (10, 8) }
    ensures first_alone { units.total_of 1 1 ≡ (0, 5) }
    ensures both_alone { units.total_of 1 2 ≡ (0, 8) }
{}

/// What ranks hold of version 1 after the fence: rank 1 the left entry, and no other rank any, with four ranks; rank 0
/// the left entry with one.
pub fn entries_held_are_those_by_hand()
    ensures first { units.holds 4 0 1 ≡ [] }
    ensures left { units.holds 4 1 1 ≡ 2 ∷ [] }
    ensures right { units.holds 4 2 1 ≡ [] }
    ensures last { units.holds 4 3 1 ≡ [] }
    ensures alone { units.holds 1 0 1 ≡ 2 ∷ [] }
{}
