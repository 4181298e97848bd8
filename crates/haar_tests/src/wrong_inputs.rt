//! Units on inputs that aren't right: each gives `Bad`, puts a bad node where its command puts one, and never panics.

use app_core::{App, Inputs, LentEffect};
use haar_app::{Down, Haar, HaarApp, Held, Side, Unit, Up, Value};
use haar_node::{Coefficient, Node};
use job_lang::parse;
use owner_map::OwnerMap;
use std::alloc::Global;
use std::test::Fail;
use tree_key::Key;

// A command of each kind, numbered from 1; `size` is the 13th.
const JOB: &[u8] =
    b"job 1 depth 3\nproject f ramp 0 1 level 0 tol 0\nrefine f 2\ncoarsen f\nproject g ramp 3 1 level 0 tol 0\nmul p = f * g\ncompress f\ncompress g\nadd h = 1 f + 1 g\ninner f g\nreconstruct h\nprint h\nfence\nsize h\nprint g\n";

/// An application that has a command of each kind.
pub fn app(alloc: Global) -> Result<HaarApp, Fail> {
    let job = match parse(alloc, JOB) {
        Ok(job) => job,
        Err(_) => return Err(Fail::from("no job")),
    };
    Ok(HaarApp::new(alloc, job, OwnerMap::Block, 2)?)
}

// Whether the unit gives `Bad` on these inputs, and puts no node but a bad one.
fn gives_bad(
    alloc: Global,
    app: &HaarApp,
    unit: Unit,
    values: Vec<Value>,
    cells: Vec<Node>,
) -> Result<bool, Fail> {
    let mut effects = app.step(alloc, unit, Inputs::new(values, cells, 0))?;
    let mut queue = effects.queue();
    let mut bad = false;
    while let Some(effect) = queue.take_first() {
        match effect {
            LentEffect::Give(_, Value::Bad) => bad = true,
            LentEffect::Put(_, Node::Bad) => {}
            _ => return Ok(false),
        }
    }
    Ok(bad)
}

/// The unit of a command that visits a key, by what it knows of the trees.
pub fn down(command: u32, key: Key, first: Side, second: Side) -> Unit {
    Unit::Down(Down {
        command,
        key,
        first,
        second,
    })
}

/// The unit of a command that combines what the children of a key gave.
pub fn up(command: u32, key: Key) -> Unit {
    let none = Haar {
        sum: Coefficient::new(0),
        difference: Coefficient::new(0),
    };
    let other = none;
    Unit::Up(Up {
        command,
        key,
        held: Held {
            first: none,
            second: other,
        },
    })
}

/// The cells that a unit is given.
pub fn cells(alloc: Global, nodes: &[Node]) -> Result<Vec<Node>, Fail> {
    let mut cells = Vec::new(alloc);
    for node in nodes {
        cells.push(*node)?;
    }
    Ok(cells)
}

// The commands that read one tree, and those that read two.
const ONE: [u32; 7] = [2, 3, 6, 7, 10, 11, 14];

const TWO: [u32; 3] = [5, 8, 9];

#[test]
fn bad_nodes_and_missing_cells_are_bad(rt: HostRuntime) -> Result<(), Fail> {
    let alloc = rt.alloc();
    let app = app(alloc)?;
    let entry = Side::Entry(Coefficient::new(0));
    for command in ONE {
        let unit = down(command, Key::root(), entry, Side::Nothing);
        let read = cells(alloc, &[Node::Bad])?;
        assert!(rt;
            gives_bad(alloc, &app, unit, Vec::new(alloc), read)?,
            "bad node, command {command}"
        );
        let none = cells(alloc, &[])?;
        assert!(rt;
            gives_bad(alloc, &app, unit, Vec::new(alloc), none)?,
            "no cell, command {command}"
        );
    }
    for command in TWO {
        let unit = down(command, Key::root(), entry, entry);
        let read = cells(alloc, &[Node::Bad, Node::Bad])?;
        assert!(rt;
            gives_bad(alloc, &app, unit, Vec::new(alloc), read)?,
            "bad nodes, command {command}"
        );
        let none = cells(alloc, &[])?;
        assert!(rt;
            gives_bad(alloc, &app, unit, Vec::new(alloc), none)?,
            "no cells, command {command}"
        );
    }
    Ok(())
}

#[test]
fn units_of_no_command_or_key_are_bad(rt: HostRuntime) -> Result<(), Fail> {
    let alloc = rt.alloc();
    let app = app(alloc)?;
    let deep = Key::root()
        .child(false)
        .child(true)
        .child(true)
        .child(false);
    for command in [0u32, 12, 13, 15, 4_000_000_000] {
        let unit = down(command, Key::root(), Side::Nothing, Side::Nothing);
        let none = cells(alloc, &[])?;
        assert!(rt;
            gives_bad(alloc, &app, unit, Vec::new(alloc), none)?,
            "down, command {command}"
        );
        let none = cells(alloc, &[])?;
        assert!(rt;
            gives_bad(alloc, &app, up(command, Key::root()), Vec::new(alloc), none)?,
            "up, command {command}"
        );
    }
    for command in [1u32, 2, 3, 5, 6, 8, 9, 10, 11, 14] {
        let unit = down(command, deep, Side::Nothing, Side::Nothing);
        let none = cells(alloc, &[])?;
        assert!(rt;
            gives_bad(alloc, &app, unit, Vec::new(alloc), none)?,
            "below the depth, command {command}"
        );
    }
    Ok(())
}

// A value of each kind that isn't one of this command's up units.
fn wrong(command: u32) -> Value {
    match command {
        1 | 2 | 5 | 8 | 10 => Value::Count(3),
        _ => Value::Bad,
    }
}

#[test]
fn wrong_values_of_children_are_bad(rt: HostRuntime) -> Result<(), Fail> {
    let alloc = rt.alloc();
    let app = app(alloc)?;
    for command in [1u32, 2, 3, 5, 6, 8, 9, 10, 11, 14] {
        let mut values = Vec::new(alloc);
        values.push(Value::Done)?;
        values.push(wrong(command))?;
        let none = cells(alloc, &[])?;
        assert!(rt;
            gives_bad(alloc, &app, up(command, Key::root()), values, none)?,
            "wrong value, command {command}"
        );
        let none = cells(alloc, &[])?;
        assert!(rt;
            gives_bad(alloc, &app, up(command, Key::root()), Vec::new(alloc), none)?,
            "no values, command {command}"
        );
    }
    Ok(())
}

#[test]
fn wrong_counts_are_bad(rt: HostRuntime) -> Result<(), Fail> {
    let alloc = rt.alloc();
    let app = app(alloc)?;
    let total = Unit::Total {
        command: 13,
        ranks: 2,
    };
    let mut values = Vec::new(alloc);
    values.push(Value::Count(1))?;
    values.push(Value::Sum(1))?;
    let none = cells(alloc, &[])?;
    assert!(rt; gives_bad(alloc, &app, total, values, none)?, "a sum");
    let mut values = Vec::new(alloc);
    values.push(Value::Count(18_446_744_073_709_551_615))?;
    values.push(Value::Count(1))?;
    let none = cells(alloc, &[])?;
    assert!(rt; gives_bad(alloc, &app, total, values, none)?, "too many");
    Ok(())
}
