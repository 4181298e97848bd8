//! Laws about books of small runs, each beside some that differ from it in one thing. Each function's contract is a law,
//! and its body does nothing.
ghost use Rattle.std.specs.Prelude.{[], ◌∷◌, reverse};
ghost use Rattle.event_books.specs.Books.{IsBook, IsLawful};
ghost use Rattle.event_books.specs.BookExamples.{hand, of_two_ranks, nothing_counted, receiver, first_main, first_worker, second_main, first_bin, second_bin, in_order, AreNoBook, whole_run, exchanged_run, of_one_main, IsLawless};

use event_lists::small_runs_are_judged;

/// A book has hands before bins, each by rank and number, and no lane twice; each lane there has an event, and each
/// receipt a row for each rank.
pub fn books_are_judged()
    ensures in_order { IsBook (of_two_ranks in_order) }
    ensures hands_by_number { AreNoBook (first_main ∷ (second_main ∷ (first_worker ∷ []))) }
    ensures bins_by_number { AreNoBook (second_bin ∷ (first_bin ∷ [])) }
    ensures bins_before_hands { AreNoBook (first_bin ∷ (second_main ∷ [])) }
    ensures a_lane_twice { AreNoBook (second_main ∷ (second_main ∷ [])) }
    ensures a_lane_without_events { AreNoBook (hand 0 0 [] ∷ []) }
    ensures no_such_lane { AreNoBook (hand 0 2 second_main.events ∷ []) }
    ensures a_row_too_few { AreNoBook (receiver (nothing_counted ∷ []) ∷ []) }
    ensures a_row_too_many { AreNoBook (receiver (nothing_counted ∷ (nothing_counted ∷ (nothing_counted ∷ []))) ∷ []) }
{}

/// The book of a run of one rank is lawful. It isn't with its part in reverse, nor with two readings exchanged.
pub fn orders_of_parts_are_judged()
    ensures book { IsBook (of_one_main whole_run) }
    ensures lawful { IsLawful (of_one_main whole_run) }
    ensures in_reverse { IsLawless (of_one_main (reverse whole_run)) }
    ensures exchanged { IsLawless (of_one_main exchanged_run) }
{
    // The list of its events is legal.
    small_runs_are_judged();
}
