//! What holds of right values of results: each function's contract is a law, and its body is empty.
ghost use Rattle.haar_meaning.specs.Printed.{TreeLinesArePrinted};
ghost use Rattle.haar_results.specs.RightResults.{RightValuesHaveLines, RightOverflowsAreBad, RightResultsMakeTheText};

/// The lines of a tree's keys, level by level after the line that names the tree, are what `print` writes.
pub fn tree_lines_are_printed()
    ensures { TreeLinesArePrinted }
{}

/// A right value of a command's result gives the lines of the command, before the first command that overflows; at that
/// command it is bad.
pub fn right_values_have_lines()
    ensures before { RightValuesHaveLines }
    ensures at { RightOverflowsAreBad }
{}

/// If the result of each command but fences is right, the lines made of the results up to the first that overflows, with the
/// line that names it, are the text of the job, and it is the first command of the job that overflows.
pub fn right_results_make_the_text()
    ensures { RightResultsMakeTheText }
{}
