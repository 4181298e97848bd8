//! Each kind of unit on each wrong kind of value or of node, in each place of its inputs: it gives `Bad`, puts a bad node
//! where its command puts one, and never panics. Right kinds in the same places show that none is refused without cause.

use crate::kinds::{NODE_KINDS, NodeKind, Outcome, VALUE_KINDS, ValueKind, outcome_of, refused};
use crate::wrong_inputs::{app, cells, down, up};
use haar_app::{HaarApp, Side, Unit, Value};
use haar_node::{Coefficient, Node};
use job_data::TreeForm;
use std::alloc::Global;
use std::test::Fail;
use tree_key::Key;

/// A command that reads trees: their form, how many they are, and whether its down units put nodes.
#[derive(Clone, Copy)]
struct Reading {
    name: &'static str,
    command: u32,
    form: TreeForm,
    trees: u32,
    writes: bool,
}

fn reading_of(
    name: &'static str,
    command: u32,
    form: TreeForm,
    trees: u32,
    writes: bool,
) -> Reading {
    Reading {
        name,
        command,
        form,
        trees,
        writes,
    }
}

// The commands that read trees, and `print` of both forms.
fn readings() -> [Reading; 10] {
    let (leaves, sums) = (TreeForm::Reconstructed, TreeForm::Compressed);
    [
        reading_of("refine", 2, leaves, 1, true),
        reading_of("coarsen", 3, leaves, 1, true),
        reading_of("mul", 5, leaves, 2, true),
        reading_of("compress f", 6, leaves, 1, true),
        reading_of("compress g", 7, leaves, 1, true),
        reading_of("add", 8, sums, 2, true),
        reading_of("inner", 9, sums, 2, false),
        reading_of("reconstruct", 10, sums, 1, true),
        reading_of("print h", 11, leaves, 1, false),
        reading_of("print g", 14, sums, 1, false),
    ]
}

fn key(place: u64) -> Result<Key, Fail> {
    match Key::of_place(place) {
        Some(key) => Ok(key),
        None => Err(Fail::from("no key")),
    }
}

// The side of the second tree that a command reads.
fn second_side(reading: Reading) -> Side {
    if reading.trees == 2 {
        Side::Entry(Coefficient::new(0))
    } else {
        Side::Nothing
    }
}

// Nodes of these kinds, and values of these kinds.
fn nodes_of(alloc: Global, kinds: &[NodeKind]) -> Result<Vec<Node>, Fail> {
    match kinds {
        [] => cells(alloc, &[]),
        [first] => cells(alloc, &[first.node()]),
        [first, second] => cells(alloc, &[first.node(), second.node()]),
        _ => Err(Fail::from("no unit reads three cells")),
    }
}

fn values_of(alloc: Global, kinds: &[ValueKind]) -> Result<Vec<Value>, Fail> {
    let mut values = Vec::new(alloc);
    for kind in kinds {
        values.push(kind.value(alloc)?)?;
    }
    Ok(values)
}

// Whether a down unit with these sides is refused on nodes of these kinds.
fn is_down_refused(
    alloc: Global,
    app: &HaarApp,
    reading: Reading,
    unit: Unit,
    kinds: &[NodeKind],
) -> Result<bool, Fail> {
    let values = values_of(alloc, &[])?;
    let made = outcome_of(alloc, app, unit, values, nodes_of(alloc, kinds)?)?;
    Ok(made == refused(reading.writes))
}

// The same, where it reads each tree of its command.
fn is_reader_refused(
    alloc: Global,
    app: &HaarApp,
    reading: Reading,
    key: Key,
    kinds: &[NodeKind],
) -> Result<bool, Fail> {
    let first = Side::Entry(Coefficient::new(0));
    let unit = down(reading.command, key, first, second_side(reading));
    is_down_refused(alloc, app, reading, unit, kinds)
}

// One kind for each of so many trees: this one at a place, and leaves elsewhere.
fn kinds_with(
    alloc: Global,
    reading: Reading,
    root: bool,
    at: u32,
    kind: NodeKind,
) -> Result<Vec<NodeKind>, Fail> {
    let mut kinds = Vec::new(alloc);
    for tree in 0..reading.trees {
        if tree == at {
            kinds.push(kind)?;
        } else {
            kinds.push(NodeKind::leaf(reading.form, root))?;
        }
    }
    Ok(kinds)
}

// Of the kinds that the command's trees may have at the key, or of all others, the first that at a place of the cells is
// refused, or isn't.
fn first_misjudged(
    alloc: Global,
    app: &HaarApp,
    reading: Reading,
    key: Key,
    at: u32,
    right: bool,
) -> Result<Option<NodeKind>, Fail> {
    let root = key.level() == 0;
    for kind in NODE_KINDS {
        let kinds = kinds_with(alloc, reading, root, at, kind)?;
        let refused = is_reader_refused(alloc, app, reading, key, kinds.as_slice())?;
        if kind.is_of(reading.form, root) == right && refused == right {
            return Ok(Some(kind));
        }
    }
    Ok(None)
}

#[test]
fn nodes_of_another_form_are_bad(rt: HostRuntime) -> Result<(), Fail> {
    let app = app(rt.alloc())?;
    for reading in readings() {
        for place in [1u64, 2, 3, 5, 8, 15] {
            for at in 0..reading.trees {
                let found = first_misjudged(rt.alloc(), &app, reading, key(place)?, at, false)?;
                assert!(rt;
                    found.is_none(),
                    "{} at {place}, cell {at}: {found:?}",
                    reading.name
                );
            }
        }
    }
    Ok(())
}

#[test]
fn nodes_of_the_form_are_not_refused(rt: HostRuntime) -> Result<(), Fail> {
    let app = app(rt.alloc())?;
    for reading in readings() {
        for place in [1u64, 2, 3, 5] {
            for at in 0..reading.trees {
                let found = first_misjudged(rt.alloc(), &app, reading, key(place)?, at, true)?;
                assert!(rt;
                    found.is_none(),
                    "{} at {place}, cell {at}: {found:?}",
                    reading.name
                );
            }
        }
    }
    Ok(())
}

// So many of the cells that a unit should have, each a leaf.
fn leaves(alloc: Global, reading: Reading, root: bool, count: u32) -> Result<Vec<NodeKind>, Fail> {
    let mut kinds = Vec::new(alloc);
    for _ in 0..count {
        kinds.push(NodeKind::leaf(reading.form, root))?;
    }
    Ok(kinds)
}

#[test]
fn cells_that_are_not_there_are_bad(rt: HostRuntime) -> Result<(), Fail> {
    let app = app(rt.alloc())?;
    for reading in readings() {
        for place in [1u64, 2, 5, 8] {
            for count in 0..reading.trees {
                let key = key(place)?;
                let kinds = leaves(rt.alloc(), reading, key.level() == 0, count)?;
                let refused = is_reader_refused(rt.alloc(), &app, reading, key, kinds.as_slice())?;
                assert!(rt; refused, "{} at {place}, {count} cells", reading.name);
            }
        }
    }
    Ok(())
}

// Whether a down unit with these sides is refused where the first of its cells alone is there, a leaf.
fn is_one_cell_refused(
    alloc: Global,
    app: &HaarApp,
    reading: Reading,
    key: Key,
    first: Side,
    second: Side,
) -> Result<bool, Fail> {
    let kinds = leaves(alloc, reading, key.level() == 0, 1)?;
    let unit = down(reading.command, key, first, second);
    is_down_refused(alloc, app, reading, unit, kinds.as_slice())
}

// The tree, of those that a command reads at a key, by its number, that isn't known and yet the unit isn't refused.
fn first_unmissed(
    alloc: Global,
    app: &HaarApp,
    reading: Reading,
    key: Key,
) -> Result<Option<u32>, Fail> {
    let entry = Side::Entry(Coefficient::new(0));
    let side = second_side(reading);
    if !is_one_cell_refused(alloc, app, reading, key, Side::Nothing, side)? {
        return Ok(Some(1));
    }
    let second = is_one_cell_refused(alloc, app, reading, key, entry, Side::Nothing)?;
    if second != (reading.trees == 2) {
        return Ok(Some(2));
    }
    Ok(None)
}

// The cell of the tree that is known is there.
#[test]
fn trees_that_are_not_known_are_bad(rt: HostRuntime) -> Result<(), Fail> {
    let app = app(rt.alloc())?;
    for reading in readings() {
        for place in [1u64, 2, 5, 8] {
            let found = first_unmissed(rt.alloc(), &app, reading, key(place)?)?;
            assert!(rt;
                found.is_none(),
                "{} at {place}, tree {found:?}",
                reading.name
            );
        }
    }
    Ok(())
}

// The unit of a key below a leaf of the first tree, which reads the second alone.
fn reads_second(command: u32, key: Key) -> Unit {
    let above = Side::Below(Coefficient::new(0));
    let read = Side::Entry(Coefficient::new(0));
    down(command, key, above, read)
}

// The unit of a key below a leaf of the second tree, which reads the first alone.
fn reads_first(command: u32, key: Key) -> Unit {
    let read = Side::Entry(Coefficient::new(0));
    let above = Side::Below(Coefficient::new(0));
    down(command, key, read, above)
}

// Whether a unit that reads the second tree alone, or the first, is refused on nodes of these kinds.
fn is_alone_refused(
    alloc: Global,
    app: &HaarApp,
    reading: Reading,
    key: Key,
    kinds: &[NodeKind],
) -> Result<(bool, bool), Fail> {
    let unit = reads_second(reading.command, key);
    let second = is_down_refused(alloc, app, reading, unit, kinds)?;
    let unit = reads_first(reading.command, key);
    let first = is_down_refused(alloc, app, reading, unit, kinds)?;
    Ok((second, first))
}

// The same, where the other tree's node has children.
fn is_beside_refused(
    alloc: Global,
    app: &HaarApp,
    reading: Reading,
    key: Key,
    kind: NodeKind,
) -> Result<(bool, bool), Fail> {
    let other = NodeKind::with_children(reading.form, key.level() == 0);
    let second = is_reader_refused(alloc, app, reading, key, &[other, kind])?;
    let first = is_reader_refused(alloc, app, reading, key, &[kind, other])?;
    Ok((second, first))
}

// The first kind of node that is refused there though a tree of the command has it at the key, or isn't though none has it.
fn first_misjudged_of_two(
    alloc: Global,
    app: &HaarApp,
    reading: Reading,
    key: Key,
) -> Result<Option<NodeKind>, Fail> {
    for kind in NODE_KINDS {
        let wrong = !kind.is_of(reading.form, key.level() == 0);
        let alone = is_alone_refused(alloc, app, reading, key, &[kind])?;
        let beside = is_beside_refused(alloc, app, reading, key, kind)?;
        if alone != (wrong, wrong) || beside != (wrong, wrong) {
            return Ok(Some(kind));
        }
    }
    Ok(None)
}

#[test]
fn nodes_beside_a_tree_of_another_shape_are_judged(rt: HostRuntime) -> Result<(), Fail> {
    let app = app(rt.alloc())?;
    for reading in readings() {
        if reading.trees == 2 {
            for place in [1u64, 2, 3, 5] {
                let key = key(place)?;
                let found = first_misjudged_of_two(rt.alloc(), &app, reading, key)?;
                assert!(rt; found.is_none(), "{} at {place}: {found:?}", reading.name);
                let none = is_alone_refused(rt.alloc(), &app, reading, key, &[])?;
                assert!(rt;
                    none == (true, true),
                    "{} at {place}, no cell",
                    reading.name
                );
            }
        }
    }
    Ok(())
}

#[test]
fn children_at_the_deepest_level_are_bad(rt: HostRuntime) -> Result<(), Fail> {
    let app = app(rt.alloc())?;
    for reading in readings() {
        let kind = NodeKind::with_children(reading.form, false);
        for place in [8u64, 11, 15] {
            let refused = is_reader_refused(rt.alloc(), &app, reading, key(place)?, &[kind, kind])?;
            assert!(rt; refused, "{} at {place}", reading.name);
        }
    }
    Ok(())
}

/// A command whose up units take values of these kinds of their two children, and whether they put nodes.
#[derive(Clone, Copy)]
struct Combining {
    name: &'static str,
    command: u32,
    kind: ValueKind,
    other: ValueKind,
    writes: bool,
}

impl Combining {
    fn takes(self, kind: ValueKind) -> bool {
        kind == self.kind || kind == self.other
    }
}

fn combining_of(name: &'static str, command: u32, kind: ValueKind, writes: bool) -> Combining {
    Combining {
        name,
        command,
        kind,
        other: kind,
        writes,
    }
}

// The commands that go over the keys of trees, and `print` of both forms. `coarsen` takes sums, and keys that are done.
fn combinings() -> [Combining; 11] {
    [
        combining_of("project", 1, ValueKind::Done, false),
        combining_of("refine", 2, ValueKind::Done, false),
        Combining {
            name: "coarsen",
            command: 3,
            kind: ValueKind::Sum,
            other: ValueKind::Done,
            writes: true,
        },
        combining_of("mul", 5, ValueKind::Done, false),
        combining_of("compress f", 6, ValueKind::Sum, true),
        combining_of("compress g", 7, ValueKind::Sum, true),
        combining_of("add", 8, ValueKind::Done, false),
        combining_of("inner", 9, ValueKind::Product, false),
        combining_of("reconstruct", 10, ValueKind::Done, false),
        combining_of("print h", 11, ValueKind::Lines, false),
        combining_of("print g", 14, ValueKind::Lines, false),
    ]
}

// Whether an up unit is refused on values of these kinds.
fn is_up_refused(
    alloc: Global,
    app: &HaarApp,
    combining: Combining,
    key: Key,
    kinds: &[ValueKind],
) -> Result<bool, Fail> {
    let unit = up(combining.command, key);
    let values = values_of(alloc, kinds)?;
    let made = outcome_of(alloc, app, unit, values, nodes_of(alloc, &[])?)?;
    Ok(made == refused(combining.writes))
}

// The first kind of the right child's value that, beside this one of the left, is refused though both are taken, or isn't
// though one of them isn't taken.
fn first_misjudged_beside(
    alloc: Global,
    app: &HaarApp,
    combining: Combining,
    key: Key,
    left: ValueKind,
) -> Result<Option<ValueKind>, Fail> {
    for right in VALUE_KINDS {
        let refused = is_up_refused(alloc, app, combining, key, &[left, right])?;
        let taken = combining.takes(left) && combining.takes(right);
        if refused == taken {
            return Ok(Some(right));
        }
    }
    Ok(None)
}

#[test]
fn values_of_another_kind_are_bad(rt: HostRuntime) -> Result<(), Fail> {
    let app = app(rt.alloc())?;
    for combining in combinings() {
        for place in [1u64, 2, 3, 5] {
            for left in VALUE_KINDS {
                let key = key(place)?;
                let found = first_misjudged_beside(rt.alloc(), &app, combining, key, left)?;
                assert!(rt;
                    found.is_none(),
                    "{} at {place}: {left:?}, {found:?}",
                    combining.name
                );
            }
        }
    }
    Ok(())
}

#[test]
fn one_value_or_three_are_bad(rt: HostRuntime) -> Result<(), Fail> {
    let app = app(rt.alloc())?;
    for combining in combinings() {
        let kind = combining.kind;
        for place in [1u64, 2, 5] {
            let key = key(place)?;
            let none = is_up_refused(rt.alloc(), &app, combining, key, &[])?;
            assert!(rt; none, "{} at {place}, no value", combining.name);
            let one = is_up_refused(rt.alloc(), &app, combining, key, &[kind])?;
            assert!(rt; one, "{} at {place}, one value", combining.name);
            let three = is_up_refused(rt.alloc(), &app, combining, key, &[kind, kind, kind])?;
            assert!(rt; three, "{} at {place}, three values", combining.name);
        }
    }
    Ok(())
}

// No command has an up unit there, so none puts a node.
#[test]
fn values_below_the_deepest_level_are_bad(rt: HostRuntime) -> Result<(), Fail> {
    let app = app(rt.alloc())?;
    for combining in combinings() {
        let nowhere = Combining {
            writes: false,
            ..combining
        };
        let pair = [combining.kind, combining.kind];
        for place in [8u64, 15, 16] {
            let refused = is_up_refused(rt.alloc(), &app, nowhere, key(place)?, &pair)?;
            assert!(rt; refused, "{} at {place}", combining.name);
        }
    }
    Ok(())
}

// Numbers of the kinds that up units take, but too large, or such that the number of cells doesn't divide the product.
fn wrong_numbers() -> [(u32, u64, Value, Value); 9] {
    const SUM: i64 = (1 << 40) + 1;
    const PRODUCT: i128 = (1 << 90) + 1;
    [
        (6, 1, Value::Sum(SUM), Value::Sum(0)),
        (6, 2, Value::Sum(0), Value::Sum(-SUM)),
        (7, 1, Value::Sum(i64::MIN), Value::Sum(i64::MIN)),
        (3, 1, Value::Sum(SUM), Value::Sum(SUM)),
        (3, 2, Value::Sum(i64::MIN), Value::Sum(i64::MIN)),
        (9, 1, Value::Product(PRODUCT), Value::Product(0)),
        (9, 2, Value::Product(0), Value::Product(-PRODUCT)),
        (9, 2, Value::Product(i128::MIN), Value::Product(i128::MIN)),
        (9, 1, Value::Product(1), Value::Product(0)),
    ]
}

#[test]
fn numbers_out_of_range_are_bad(rt: HostRuntime) -> Result<(), Fail> {
    let app = app(rt.alloc())?;
    for (command, place, left, right) in wrong_numbers() {
        let mut values = Vec::new(rt.alloc());
        values.push(left)?;
        values.push(right)?;
        let unit = up(command, key(place)?);
        let made = outcome_of(rt.alloc(), &app, unit, values, Vec::new(rt.alloc()))?;
        assert!(rt;
            made == refused(command != 9),
            "command {command} at {place}: {made:?}"
        );
    }
    Ok(())
}

// The first kind that among three counts, at this place, isn't refused though it is no count, or is though it is one.
fn first_misjudged_count(alloc: Global, app: &HaarApp, at: u32) -> Result<Option<ValueKind>, Fail> {
    for kind in VALUE_KINDS {
        let mut values = Vec::new(alloc);
        for rank in 0..3u32 {
            let given = if rank == at { kind } else { ValueKind::Count };
            values.push(given.value(alloc)?)?;
        }
        let unit = Unit::Total {
            command: 13,
            ranks: 3,
        };
        let made = outcome_of(alloc, app, unit, values, Vec::new(alloc))?;
        if (made == refused(false)) == (kind == ValueKind::Count) {
            return Ok(Some(kind));
        }
    }
    Ok(None)
}

#[test]
fn only_counts_are_added(rt: HostRuntime) -> Result<(), Fail> {
    let app = app(rt.alloc())?;
    for at in 0..3u32 {
        let found = first_misjudged_count(rt.alloc(), &app, at)?;
        assert!(rt; found.is_none(), "rank {at}: {found:?}");
    }
    Ok(())
}

// What a unit does on values and nodes of these kinds.
fn outcome_on(
    alloc: Global,
    app: &HaarApp,
    unit: Unit,
    values: &[ValueKind],
    nodes: &[NodeKind],
) -> Result<Outcome, Fail> {
    let values = values_of(alloc, values)?;
    outcome_of(alloc, app, unit, values, nodes_of(alloc, nodes)?)
}

// Whether a unit does the same without inputs and with any value and any node.
fn takes_nothing(alloc: Global, app: &HaarApp, unit: Unit) -> Result<bool, Fail> {
    let alone = outcome_on(alloc, app, unit, &[], &[])?;
    for value in VALUE_KINDS {
        for node in NODE_KINDS {
            if outcome_on(alloc, app, unit, &[value], &[node])? != alone {
                return Ok(false);
            }
        }
    }
    Ok(alone.bad_dues == 0 && alone.bad_nodes == 0 && alone.others > 0)
}

// The down units of `project`, and the units that count and that erase, read nothing and need nothing.
#[test]
fn inputs_that_no_unit_takes_change_nothing(rt: HostRuntime) -> Result<(), Fail> {
    let app = app(rt.alloc())?;
    let units = [
        down(1, key(1)?, Side::Nothing, Side::Nothing),
        down(1, key(15)?, Side::Nothing, Side::Nothing),
        Unit::Clear {
            command: 3,
            key: key(2)?,
        },
        Unit::Count {
            command: 13,
            rank: 1,
        },
    ];
    for unit in units {
        let same = takes_nothing(rt.alloc(), &app, unit)?;
        assert!(rt; same, "{unit:?}");
    }
    Ok(())
}
