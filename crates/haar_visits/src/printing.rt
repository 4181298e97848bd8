//! Units of `print`.
ghost use Rattle.std.specs.Prelude.{◌≡◌, IfOk, pos};
ghost use Rattle.haar_visits.specs.Printing.{heading, headed, print_key, print_cut, print_leaf, print_by, print_sums, visit_printed, own_line, print_rows, print_right, print_value, combine_printed};

use app_core::OutOfMemory;
use haar_base::decisions::{Combination, Visit, bad_visit};
use haar_base::readings::{Leaf, Sums, entry, leaf_at, no_haar, nothing_held, one, sums_at};
use haar_base::{Haar, Held, Side, Value};
use haar_lines::Lines;
use haar_lines::texts::{compressed_heading, key_line, reconstructed_heading};
use haar_node::{Coefficient, Node};
use job_data::TreeForm;
use job_words::Name;
use std::alloc::Global;
use tree_key::{Key, Text};

/// The tree that is printed: its form and its name.
#[derive(Clone, Copy)]
pub struct Printed {
    pub form: TreeForm,
    pub name: Name,
}

// The line that names the tree.
fn heading(alloc: Global, printed: Printed, sum: Coefficient) -> Result<Text, OutOfMemory>
    ensures { IfOk result (λ text. text ≡ heading printed sum) }
{
    match printed.form {
        TreeForm::Reconstructed => reconstructed_heading(alloc, printed.name.bytes()),
        TreeForm::Compressed => compressed_heading(alloc, printed.name.bytes(), sum.get()),
    }
}

// The rows with the line that names the tree before them, where the key is the root.
fn headed(
    alloc: Global,
    printed: Printed,
    key: Key,
    sum: Coefficient,
    lines: Lines,
) -> Result<Lines, OutOfMemory>
    ensures { IfOk result (λ all. all ≡ headed printed key sum lines) }
{
    if key.level() == 0 {
        lines.with_row(alloc, heading(alloc, printed, sum)?)
    } else {
        Ok(lines)
    }
}

// The lines of a key without children.
fn give(
    alloc: Global,
    printed: Printed,
    key: Key,
    sum: Coefficient,
    own: Text,
) -> Result<Visit, OutOfMemory>
    ensures { IfOk result (λ visit. visit ≡ print_key printed key sum own) }
{
    let lines = Lines::of_text(alloc, own)?;
    let all = headed(alloc, printed, key, sum, lines)?;
    Ok(Visit::Give {
        node: None,
        value: Value::Lines(all),
    })
}

// Both children are visited, where there may be some.
fn cut(depth: u8, key: Key, held: Held) -> Visit
    ensures { result ≡ print_cut depth key held }
{
    if key.level() < depth {
        Visit::Split {
            node: None,
            left: one(entry()),
            right: one(entry()),
            held,
        }
    } else {
        bad_visit(false)
    }
}

// Visits a key of a reconstructed tree: each leaf has a line.
fn visit_leaf(
    alloc: Global,
    depth: u8,
    printed: Printed,
    key: Key,
    leaf: Leaf,
) -> Result<Visit, OutOfMemory>
    ensures { IfOk result (λ visit. visit ≡ print_leaf depth printed key leaf) }
{
    match leaf {
        Leaf::Whole(sum) => {
            let line = key_line(alloc, key, sum.get())?;
            give(alloc, printed, key, sum, line)
        }
        Leaf::Cut => Ok(cut(depth, key, nothing_held())),
        Leaf::Wrong => Ok(bad_visit(false)),
    }
}

// The numbers of a key with children.
fn held(sum: Coefficient, difference: Coefficient) -> Held
    ensures { result ≡ record { first = record { sum = sum; difference = difference }; second = record { sum = pos 0; difference = pos 0 } } }
{
    Held {
        first: Haar { sum, difference },
        second: no_haar(),
    }
}

// Visits a key of a compressed tree: each key with children has a line.
fn visit_sums(
    alloc: Global,
    depth: u8,
    printed: Printed,
    key: Key,
    sums: &Sums,
) -> Result<Visit, OutOfMemory>
    ensures { IfOk result (λ visit. visit ≡ print_by depth printed key sums.now.sum sums.now.difference) }
{
    match sums.difference {
        None => give(alloc, printed, key, sums.sum, Text::new(alloc)),
        Some(difference) => Ok(cut(depth, key, held(sums.sum, difference))),
    }
}

/// Visits a key.
pub fn visit(
    alloc: Global,
    depth: u8,
    printed: Printed,
    key: Key,
    side: Side,
    cell: Option<Node>,
) -> Result<Visit, OutOfMemory>
    ensures { IfOk result (λ visit. visit ≡ visit_printed depth printed key side cell) }
{
    match printed.form {
        TreeForm::Reconstructed => visit_leaf(alloc, depth, printed, key, leaf_at(side, cell)),
        TreeForm::Compressed => match sums_at(key.level() == 0, side, cell) {
            None => Ok(bad_visit(false)),
            Some(sums) => visit_sums(alloc, depth, printed, key, &sums),
        },
    }
}

// The key's own line.
fn own_line(alloc: Global, form: TreeForm, key: Key, held: &Held) -> Result<Text, OutOfMemory>
    ensures { IfOk result (λ text. text ≡ own_line form key held.now) }
{
    match form {
        TreeForm::Reconstructed => Ok(Text::new(alloc)),
        TreeForm::Compressed => key_line(alloc, key, held.first.difference.get()),
    }
}

// The lines of both children, behind the key's own.
fn rows(
    alloc: Global,
    printed: Printed,
    key: Key,
    held: &Held,
    left: Lines,
    right: Lines,
) -> Result<Value, OutOfMemory>
    ensures { IfOk result (λ value. value ≡ print_rows printed key held.now left right) }
{
    let own = own_line(alloc, printed.form, key, held)?;
    let both = left.with_beside(right)?;
    let lines = both.with_row(alloc, own)?;
    let all = headed(alloc, printed, key, held.first.sum, lines)?;
    Ok(Value::Lines(all))
}

// By the lines of the left child.
fn print_right(
    alloc: Global,
    printed: Printed,
    key: Key,
    held: &Held,
    left: Lines,
    right: Value,
) -> Result<Value, OutOfMemory>
    ensures { IfOk result (λ value. value ≡ print_right printed key held.now left right) }
{
    match right {
        Value::Lines(right) => rows(alloc, printed, key, held, left, right),
        _ => Ok(Value::Bad),
    }
}

// By what both children gave.
fn print_value(
    alloc: Global,
    printed: Printed,
    key: Key,
    held: &Held,
    left: Value,
    right: Value,
) -> Result<Value, OutOfMemory>
    ensures { IfOk result (λ value. value ≡ print_value printed key held.now left right) }
{
    match left {
        Value::Lines(left) => print_right(alloc, printed, key, held, left, right),
        _ => Ok(Value::Bad),
    }
}

/// The lines of both children, behind the key's own.
pub fn combine(
    alloc: Global,
    printed: Printed,
    key: Key,
    held: &Held,
    left: Value,
    right: Value,
) -> Result<Combination, OutOfMemory>
    ensures { IfOk result (λ combination. combination ≡ combine_printed printed key held.now left right) }
{
    let value = print_value(alloc, printed, key, held, left, right)?;
    Ok(Combination::Give { node: None, value })
}
