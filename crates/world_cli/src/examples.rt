//! The answers to small inputs, computed from the definitions. What is expected was worked out by hand.
ghost use Rattle.std.specs.Prelude.{◌≡◌, [], codes, false, true};
ghost use Rattle.owner_map.specs.declared.map.OwnerMap.TheVariants.{Block, Level, Spread};
ghost use Rattle.command_line.specs.declared.request.Request.TheVariants.{Run, Serial, Check, BigJob};
ghost use Rattle.world_cli.specs.Answers.{answer_to, has_input};

/// Without any line the header is missing on line 1.
fn empty_input()
    ensures { answer_to (Run 1 0 Block) [] ≡ record { status = 2; text = codes "fault line 1 F2 header\n" } }
{}

/// A ramp is printed cell by cell.
fn printed_ramp()
    ensures { answer_to (Run 1 0 Block) (codes "job 1 depth 2\nproject f ramp 0 1 level 0 tol 0\nprint f\n")
        ≡ record { status = 0; text = codes "tree f reconstructed\n2 0 0\n2 1 1\n2 2 2\n2 3 3\n" } }
{}

/// So it is on two ranks, and on sixteen with four workers each.
fn ramp_on_more_ranks()
    ensures two { answer_to (Run 2 0 Spread) (codes "job 1 depth 1\nproject f ramp 0 1 level 0 tol 0\nprint f\n")
        ≡ record { status = 0; text = codes "tree f reconstructed\n1 0 0\n1 1 1\n" } }
    ensures sixteen { answer_to (Run 16 4 Level) (codes "job 1 depth 1\nproject f ramp 0 1 level 0 tol 0\nprint f\n")
        ≡ record { status = 0; text = codes "tree f reconstructed\n1 0 0\n1 1 1\n" } }
{}

/// A job without commands writes nothing.
fn no_command()
    ensures { answer_to (Run 1 0 Block) (codes "job 1 depth 2\n") ≡ record { status = 0; text = [] } }
{}

/// A tree that isn't written can't be printed.
fn unknown_tree()
    ensures { answer_to (Serial 1 Block false) (codes "job 1 depth 0\n\nprint f\n")
        ≡ record { status = 2; text = codes "fault line 3 F6 unknown tree\n" } }
{}

/// Twice the largest value is too much for a sum.
fn overflow_in_a_sum()
    ensures { answer_to (Serial 1 Block false) (codes "job 1 depth 0\nproject f const 16777216 level 0 tol 0\ncompress f\nadd h = 2 f + 0 f\nprint h\n")
        ≡ record { status = 3; text = codes "overflow at command 3\n" } }
{}

/// A job that is only read has its commands and its trees counted.
fn commands_and_trees()
    ensures { answer_to Check (codes "job 1 depth 2\nproject f ramp 0 1 level 0 tol 0\nfence\nproject f const 1 level 0 tol 0\n")
        ≡ record { status = 0; text = codes "ok commands 3 trees 1\n" } }
{}

/// Three keys, one of them on another rank than its parent: four tasks and two messages, which a fence and the end tell.
fn receipts_of_two_ranks()
    ensures { answer_to (Serial 2 Spread true) (codes "job 1 depth 1\nproject f ramp 0 1 level 0 tol 0\nfence\n")
        ≡ record { status = 0; text = codes "fence 1 messages 2 tasks 4\nend messages 2 tasks 4\n" } }
{}

/// `run` names the first command that it can't carry out yet, and `serial` carries it out.
fn commands_that_cannot_be_run_yet()
    ensures run { answer_to (Run 1 0 Block) (codes "job 1 depth 0\nproject f const 5 level 0 tol 0\nfence\nsize f\ncoarsen f\n")
        ≡ record { status = 2; text = codes "fault command 3 unbuilt\n" } }
    ensures serial { answer_to (Serial 1 Block false) (codes "job 1 depth 0\nproject f const 5 level 0 tol 0\nfence\nsize f\ncoarsen f\n")
        ≡ record { status = 0; text = codes "size f 1\n" } }
{}

/// A generated job needs no input, and what one says plays no part.
fn generated_jobs_need_no_input()
    ensures input { has_input (BigJob 7) ≡ false }
    ensures answer { answer_to (BigJob 7) (codes "no job") ≡ record { status = 0; text = codes "job 1 depth 12\nproject f hash 7 1000 level 4 tol 500\nproject g ramp 7 1 level 2 tol 16\nproject h box 7 4096 7 level 6 tol 0\nfence\ncompress f\ncompress g\ncompress h\nadd p = 2 f + -1 g\ninner f g\ninner p h\nfence\nreconstruct p\nreconstruct h\nmul q = p * h\nfence\ncoarsen q\nfence\nsize q\n" } }
{}
