//! Laws about legal lists of events: each function's contract is a law, and its body is empty.
ghost use Rattle.event_lists.specs.Laws.{BeginningsAreLegal, MessagesAreHandledOnce, TasksRunOnce, FuturesAreGivenOnce, DuesAreNamed, NeedsAreNamed, CountsAreFrozen, NothingIsOpen, NothingChanges, NothingIsDone, DuesAreGiven, ReceiptsAreQuiet};
ghost use Rattle.event_lists.specs.Legal.{Legal, Illegal};
ghost use Rattle.event_lists.specs.FenceRuns.{first_run, one_pass, second_run, one_reading, third_run};
ghost use Rattle.event_lists.specs.TaskRuns.{whole_run, taken_too_early, handled_too_early, ran_too_early};

/// How a legal list began is legal.
pub fn beginnings_are_legal()
    ensures { BeginningsAreLegal }
{}

/// A message is handled at most once and only after it was sent, a task runs at most once and only after it was
/// submitted, and a future is given at most once.
pub fn events_are_counted_once()
    ensures messages { MessagesAreHandledOnce }
    ensures tasks { TasksRunOnce }
    ensures futures { FuturesAreGivenOnce }
{}

/// The futures that a message or task has as its due and its needs have the labels that it names.
pub fn futures_have_their_names()
    ensures dues { DuesAreNamed }
    ensures needs { NeedsAreNamed }
{}

/// Where the two passes of a receipt agree in their sums, they have the same row at each rank.
pub fn counts_are_frozen()
    ensures { CountsAreFrozen }
{}

/// At a moment at which the first of the two passes of a receipt is complete at every rank, each message sent is
/// handled, and each task submitted has run.
pub fn nothing_is_open_between_the_passes()
    ensures { NothingIsOpen }
{}

/// From such a moment up to the receipt no count changes, and nothing is sent, taken, handled, submitted, run or given.
pub fn nothing_changes_up_to_the_receipt()
    ensures counts { NothingChanges }
    ensures events { NothingIsDone }
{}

/// Before a receipt each future that a message or task had as its due was given once.
pub fn dues_are_given_up_to_the_receipt()
    ensures { DuesAreGiven }
{}

/// Each receipt of a legal list is quiet: its rows name the messages, handlings, submissions and runs before it, in
/// the whole list; each message sent before it was handled once, at the rank that it was sent to; each task submitted
/// before it ran once; and each need of such a task was given once, before the task was taken.
pub fn receipts_are_quiet()
    ensures { ReceiptsAreQuiet }
{}

/// Three lists of a run of one rank that has no commands. The first, with two passes and a receipt, is legal. The second
/// is legal up to its receipt, which comes after a single pass, and not with it; the third up to its third event, which
/// reads submitted before ran, and not with it.
pub fn small_runs_are_judged()
    ensures two_passes_and_a_receipt { Legal 1 0 first_run }
    ensures one_pass { Legal 1 0 one_pass }
    ensures receipt_after_one_pass { Illegal 1 0 second_run }
    ensures one_reading { Legal 1 0 one_reading }
    ensures submitted_before_ran { Illegal 1 0 third_run }
{}

/// A run of two ranks in which rank 0 sends a unit to rank 1, which runs it and sends its future's value back, and then
/// runs a task that needed it. It is legal. It isn't where the task is taken before its need was given, the message is
/// handled before its unit was submitted, or the unit ends without giving its due.
pub fn a_run_with_tasks_is_judged()
    ensures whole_run { Legal 2 0 whole_run }
    ensures taken_before_a_need_is_given { Illegal 2 0 taken_too_early }
    ensures handled_before_the_submission { Illegal 2 0 handled_too_early }
    ensures ran_with_a_due_kept { Illegal 2 0 ran_too_early }
{}
