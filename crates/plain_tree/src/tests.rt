//! Whole jobs, made of their parts. The expected texts were worked out by hand; those of whole jobs with receipts are from
//! another program.

use crate::{SerialError, serial};
use haar_node::Func;
use job_data::{Command, Job};
use job_words::Name;
use owner_map::OwnerMap;
use std::alloc::Global;
use std::process::Abort;
use std::test::Fail;
use tree_totals::Distribution;

fn name(bytes: &[u8]) -> Result<Name, Fail> {
    match Name::of_word(bytes) {
        Some(name) => Ok(name),
        None => Err(Fail::from("not a name")),
    }
}

fn project_to(to: &[u8], function: Func, level: u8, tolerance: u32) -> Result<Command, Fail> {
    let name = name(to)?;
    Ok(Command::Project {
        name,
        function,
        level,
        tolerance,
    })
}

fn project(to: &[u8], function: Func, tolerance: u32) -> Result<Command, Fail> {
    project_to(to, function, 0, tolerance)
}

fn refine(bytes: &[u8], level: u8) -> Result<Command, Fail> {
    let name = name(bytes)?;
    Ok(Command::Refine { name, level })
}

fn compress(bytes: &[u8]) -> Result<Command, Fail> {
    let name = name(bytes)?;
    Ok(Command::Compress { name })
}

fn reconstruct(bytes: &[u8]) -> Result<Command, Fail> {
    let name = name(bytes)?;
    Ok(Command::Reconstruct { name })
}

fn print(bytes: &[u8]) -> Result<Command, Fail> {
    let name = name(bytes)?;
    Ok(Command::Print { name })
}

fn add(
    to: &[u8],
    left_factor: i64,
    left: &[u8],
    right_factor: i64,
    right: &[u8],
) -> Result<Command, Fail> {
    let to = name(to)?;
    let left = name(left)?;
    let right = name(right)?;
    Ok(Command::Add {
        name: to,
        left_factor,
        left,
        right_factor,
        right,
    })
}

fn multiply(to: &[u8], left: &[u8], right: &[u8]) -> Result<Command, Fail> {
    let to = name(to)?;
    let left = name(left)?;
    let right = name(right)?;
    Ok(Command::Mul {
        name: to,
        left,
        right,
    })
}

fn inner(left: &[u8], right: &[u8]) -> Result<Command, Fail> {
    let left = name(left)?;
    let right = name(right)?;
    Ok(Command::Inner { left, right })
}

// What a job is done with: keys that are distributed over ranks, with receipts or without them.
#[derive(Clone, Copy)]
struct Setting {
    distribution: Distribution,
    receipts: bool,
}

// Does the job of these parts, and compares its text and the command that overflows; 0 stands for none.
fn expect_in(
    setting: Setting,
    rt: &impl Abort,
    alloc: Global,
    depth: u8,
    commands: Vec<Command>,
    overflow: u32,
    expected: &[u8],
) {
    let job = Job::of_commands(depth, commands).expect(rt, "the commands are a job");
    let Distribution { map, ranks } = setting.distribution;
    match serial(alloc, &job, map, ranks, setting.receipts) {
        Ok(text) => {
            assert_eq!(rt; overflow, 0);
            assert_eq!(rt; text.bytes(), expected);
        }
        Err(SerialError::Overflow { command, text }) => {
            assert_eq!(rt; command, overflow);
            assert_eq!(rt; text.bytes(), expected);
        }
        Err(SerialError::OutOfMemory) => assert!(rt; false, "there is memory"),
    }
}

// The same without receipts.
fn expect(
    rt: &impl Abort,
    alloc: Global,
    depth: u8,
    commands: Vec<Command>,
    overflow: u32,
    expected: &[u8],
) {
    let distribution = Distribution {
        map: OwnerMap::Spread,
        ranks: 3,
    };
    let setting = Setting {
        distribution,
        receipts: false,
    };
    expect_in(setting, rt, alloc, depth, commands, overflow, expected);
}

// The same with receipts.
fn expect_receipts(
    distribution: Distribution,
    rt: &impl Abort,
    alloc: Global,
    depth: u8,
    commands: Vec<Command>,
    overflow: u32,
    expected: &[u8],
) {
    let setting = Setting {
        distribution,
        receipts: true,
    };
    expect_in(setting, rt, alloc, depth, commands, overflow, expected);
}

const RAMP: Func = Func::Ramp(0, 1);

#[test]
fn a_ramp_is_compressed_and_reconstructed(rt: HostRuntime) -> Result<(), Fail> {
    let alloc = rt.alloc();
    let mut commands = Vec::new(alloc);
    commands.push(project(b"f", RAMP, 0)?)?;
    commands.push(compress(b"f")?)?;
    commands.push(print(b"f")?)?;
    commands.push(inner(b"f", b"f")?)?;
    commands.push(Command::Fence)?;
    commands.push(reconstruct(b"f")?)?;
    commands.push(print(b"f")?)?;
    let text =
        b"tree f compressed 6\n0 0 -4\n1 0 -1\n1 1 -1\ninner f f 14\ntree f reconstructed\n2 0 0\n2 1 1\n2 2 2\n2 3 3\n";
    expect(&rt, alloc, 2, commands, 0, text.as_slice());
    Ok(())
}

#[test]
fn a_constant_less_a_ramp_has_the_keys_of_both(rt: HostRuntime) -> Result<(), Fail> {
    let alloc = rt.alloc();
    let mut commands = Vec::new(alloc);
    commands.push(project(b"f", Func::Const(5), 0)?)?;
    commands.push(project(b"g", RAMP, 0)?)?;
    commands.push(compress(b"f")?)?;
    commands.push(compress(b"g")?)?;
    commands.push(add(b"h", 1, b"f", -1, b"g")?)?;
    commands.push(print(b"h")?)?;
    let text = b"tree h compressed 14\n0 0 4\n1 0 1\n1 1 1\n";
    expect(&rt, alloc, 2, commands, 0, text.as_slice());
    Ok(())
}

#[test]
fn a_tree_is_refined_and_multiplied(rt: HostRuntime) -> Result<(), Fail> {
    let alloc = rt.alloc();
    let mut commands = Vec::new(alloc);
    commands.push(project(b"f", RAMP, 2)?)?;
    commands.push(print(b"f")?)?;
    commands.push(refine(b"f", 1)?)?;
    commands.push(project(b"g", Func::Step(1, 2, -3), 0)?)?;
    commands.push(multiply(b"f", b"g", b"g")?)?;
    commands.push(print(b"f")?)?;
    let text = b"tree f reconstructed\n0 0 0\ntree f reconstructed\n1 1 18\n2 0 4\n2 1 9\n";
    expect(&rt, alloc, 2, commands, 0, text.as_slice());
    Ok(())
}

fn coarsen(bytes: &[u8]) -> Result<Command, Fail> {
    let name = name(bytes)?;
    Ok(Command::Coarsen { name })
}

fn size(bytes: &[u8]) -> Result<Command, Fail> {
    let name = name(bytes)?;
    Ok(Command::Size { name })
}

// Splits the tree of a function down to its cells, coarsens it, and prints it and its size in both forms.
fn coarsened_job(alloc: Global, function: Func) -> Result<Vec<Command>, Fail> {
    let mut commands = Vec::new(alloc);
    commands.push(project_to(b"f", function, 3, 0)?)?;
    commands.push(coarsen(b"f")?)?;
    commands.push(print(b"f")?)?;
    commands.push(Command::Fence)?;
    commands.push(size(b"f")?)?;
    commands.push(compress(b"f")?)?;
    commands.push(Command::Fence)?;
    commands.push(size(b"f")?)?;
    Ok(commands)
}

#[test]
fn a_tree_is_coarsened_and_counted(rt: HostRuntime) -> Result<(), Fail> {
    let constant = b"tree f reconstructed\n0 0 40\nsize f 1\nsize f 1\n".as_slice();
    let halves = b"tree f reconstructed\n1 0 8\n1 1 -4\nsize f 3\nsize f 3\n".as_slice();
    let quarters =
        b"tree f reconstructed\n1 1 0\n2 0 0\n3 2 0\n3 3 8\nsize f 7\nsize f 7\n".as_slice();
    let equal_sums =
        b"tree f reconstructed\n1 0 0\n3 4 0\n3 5 3\n3 6 3\n3 7 0\nsize f 9\nsize f 9\n".as_slice();
    let cases = [
        (Func::Const(5), constant),
        (Func::Step(4, 2, -1), halves),
        (Func::Box(3, 4, 8), quarters),
        (Func::Box(5, 7, 3), equal_sums),
    ];
    for (function, text) in cases {
        let commands = coarsened_job(rt.alloc(), function)?;
        expect(&rt, rt.alloc(), 3, commands, 0, text);
    }
    Ok(())
}

#[test]
fn the_text_ends_at_the_first_overflow(rt: HostRuntime) -> Result<(), Fail> {
    let alloc = rt.alloc();
    let mut commands = Vec::new(alloc);
    commands.push(project(b"f", Func::Const(16_777_216), 0)?)?;
    commands.push(print(b"f")?)?;
    commands.push(compress(b"f")?)?;
    commands.push(add(b"h", 2, b"f", 0, b"f")?)?;
    commands.push(add(b"k", 3, b"f", 0, b"f")?)?;
    commands.push(print(b"h")?)?;
    let text = b"tree f reconstructed\n0 0 16777216\n";
    expect(&rt, alloc, 0, commands, 4, text.as_slice());
    Ok(())
}

#[test]
fn products_go_up_to_the_limit(rt: HostRuntime) -> Result<(), Fail> {
    let alloc = rt.alloc();
    let mut commands = Vec::new(alloc);
    commands.push(project(b"f", Func::Const(4096), 0)?)?;
    commands.push(project(b"g", Func::Const(-4096), 0)?)?;
    commands.push(multiply(b"h", b"f", b"g")?)?;
    commands.push(print(b"h")?)?;
    commands.push(project(b"f", Func::Const(4097), 0)?)?;
    commands.push(multiply(b"h", b"f", b"g")?)?;
    let text = b"tree h reconstructed\n0 0 -16777216\n";
    expect(&rt, alloc, 0, commands, 6, text.as_slice());
    Ok(())
}

#[test]
fn receipts_over_four_blocks(rt: HostRuntime) -> Result<(), Fail> {
    let alloc = rt.alloc();
    let mut commands = Vec::new(alloc);
    commands.push(project_to(b"g", Func::Ramp(-1, 0), 3, 1)?)?;
    commands.push(print(b"g")?)?;
    commands.push(coarsen(b"g")?)?;
    commands.push(print(b"g")?)?;
    commands.push(Command::Fence)?;
    commands.push(size(b"g")?)?;
    commands.push(coarsen(b"g")?)?;
    commands.push(compress(b"g")?)?;
    commands.push(print(b"g")?)?;
    commands.push(inner(b"g", b"g")?)?;
    commands.push(reconstruct(b"g")?)?;
    let distribution = Distribution {
        map: OwnerMap::Block,
        ranks: 4,
    };
    let text =
        b"tree g reconstructed\n3 0 -1\n3 1 -1\n3 2 -1\n3 3 -1\n3 4 -1\n3 5 -1\n3 6 -1\n3 7 -1\ntree g reconstructed\n0 0 -8\nfence 1 messages 21 tasks 81\nsize g 1\ntree g compressed -8\ninner g g 8\nend messages 27 tasks 91\n";
    expect_receipts(distribution, &rt, alloc, 3, commands, 0, text.as_slice());
    Ok(())
}

#[test]
fn receipts_of_sums_spread_over_three_ranks(rt: HostRuntime) -> Result<(), Fail> {
    let alloc = rt.alloc();
    let mut commands = Vec::new(alloc);
    commands.push(project(b"tree_1", Func::Hash(0, 1), 3)?)?;
    commands.push(coarsen(b"tree_1")?)?;
    commands.push(compress(b"tree_1")?)?;
    commands.push(project_to(b"f", Func::Ramp(60, 1), 2, 100)?)?;
    commands.push(add(b"g", 1, b"tree_1", 0, b"tree_1")?)?;
    commands.push(add(b"p", -3, b"tree_1", 0, b"tree_1")?)?;
    commands.push(project_to(b"h", Func::Step(4, -1, 1), 1, 3)?)?;
    commands.push(Command::Fence)?;
    let distribution = Distribution {
        map: OwnerMap::Spread,
        ranks: 3,
    };
    let text = b"fence 1 messages 16 tasks 19\nend messages 16 tasks 19\n";
    expect_receipts(distribution, &rt, alloc, 2, commands, 0, text.as_slice());
    Ok(())
}

#[test]
fn receipts_end_at_an_overflow(rt: HostRuntime) -> Result<(), Fail> {
    let alloc = rt.alloc();
    let mut commands = Vec::new(alloc);
    commands.push(project_to(b"a", Func::Step(4, 16_777_215, -16_777_216), 1, 0)?)?;
    commands.push(refine(b"a", 1)?)?;
    commands.push(refine(b"a", 2)?)?;
    commands.push(print(b"a")?)?;
    commands.push(Command::Fence)?;
    commands.push(size(b"a")?)?;
    commands.push(project_to(b"f", Func::Hash(0, 12_179_904), 1, 1)?)?;
    commands.push(size(b"a")?)?;
    commands.push(multiply(b"a", b"a", b"f")?)?;
    commands.push(Command::Fence)?;
    commands.push(print(b"f")?)?;
    let distribution = Distribution {
        map: OwnerMap::Block,
        ranks: 4,
    };
    let text =
        b"tree a reconstructed\n2 0 16777215\n2 1 16777215\n2 2 16777215\n2 3 16777215\nfence 1 messages 16 tasks 28\nsize a 7\nsize a 7\n";
    expect_receipts(distribution, &rt, alloc, 2, commands, 9, text.as_slice());
    Ok(())
}
