//! The application of a job, under the bounds of an application and of its laws on lists of events.
ghost use Rattle.std.specs.Prelude.{◌≡◌, length, IfSome, IsSome};
ghost use Rattle.app_core.specs.Commands.{IsCommand, IsRankCount};

use app_core::{App, CellName, CommandKind, Label, LentEffect};
use event_laws::ListLaws;
use haar_app::HaarApp;
use job_lang::parse;
use owner_map::OwnerMap;
use std::alloc::Global;
use std::test::Fail;

/// What the main of rank 0 sees of the commands of an application.
#[derive(Clone, Copy, Debug, PartialEq, Eq)]
enum Seen {
    /// A work command, and the future of its result.
    Work {
        result: Option<Label>,
    },

    /// A unit that it starts: its name, the future that it must fulfil, its rank, the first entry that it reads, and the
    /// version whose entries it counts.
    Start {
        unit: Label,
        due: Option<Label>,
        home: u32,
        reads: Option<CellName>,
        counts: Option<u32>,
    },

    /// A fence, with the first version that is dropped there.
    Fence {
        dropped: Option<u32>,
    },
}

// How many commands an application has that also has laws on lists of events.
fn count_commands<A: App + ListLaws>(app: &A) -> u32
    ensures { result ≡ length (A.kinds_of app.now) }
{
    app.commands()
}

// The first version that is dropped at a fence: a command writes it.
fn first_dropped<A: App + ListLaws>(app: &A, fence: u32) -> Option<u32>
    ensures { IfSome result (λ version. IsSome (A.writer_of app.now version)) }
{
    app.dropped(fence, 0)
}

fn see_unit<A: App + ListLaws>(app: &A, unit: &A::Unit, ranks: u32) -> Seen
    requires { IsRankCount ranks }
{
    Seen::Start {
        unit: app.label(unit),
        due: app.due(unit),
        home: app.home(unit, ranks),
        reads: app.reads(unit, 0),
        counts: app.counts(unit),
    }
}

// The units that a command starts, in order.
fn see_starts<A: App + ListLaws>(
    alloc: Global,
    app: &A,
    command: u32,
    ranks: u32,
    seen: &mut Vec<Seen>,
) -> Result<(), Fail>
    requires command { IsCommand (A.kinds_of app.now) command }
    requires ranks { IsRankCount ranks }
{
    let mut effects = app.starts(alloc, command, ranks)?;
    let mut queue = effects.queue();
    while let Some(effect) = queue.take_first() {
        match effect {
            LentEffect::Spawn(unit) => seen.push(see_unit(app, &unit, ranks))?,
            LentEffect::SpawnNeeding(unit, _) => seen.push(see_unit(app, &unit, ranks))?,
            _ => return Err(Fail::from("a start is no spawn")),
        }
    }
    Ok(())
}

// All commands in order, and the fence at the end.
fn see_commands<A: App + ListLaws>(alloc: Global, app: &A, ranks: u32) -> Result<Vec<Seen>, Fail>
    requires { IsRankCount ranks }
{
    let mut seen = Vec::new(alloc);
    let mut fence = 1u32;
    let count = count_commands(app);
    for before in 0..count {
        let command = before + 1;
        match app.kind(command) {
            CommandKind::Work => {
                seen.push(Seen::Work {
                    result: app.result(command),
                })?;
                see_starts(alloc, app, command, ranks, &mut seen)?;
            }
            CommandKind::Fence => {
                seen.push(Seen::Fence {
                    dropped: first_dropped(app, fence),
                })?;
                fence = fence.saturating_add(1);
            }
        }
    }
    seen.push(Seen::Fence {
        dropped: first_dropped(app, fence),
    })?;
    Ok(seen)
}

fn label(command: u32, part: u8, place: u64) -> Label {
    Label {
        command,
        part,
        place,
    }
}

// The unit of the root of a command's tree, which runs on rank 0 and reads the root of a version.
fn root(command: u32, reads: Option<CellName>) -> Seen {
    Seen::Start {
        unit: label(command, 0, 1),
        due: Some(label(command, 0, 1)),
        home: 0,
        reads,
        counts: None,
    }
}

// The unit that counts the entries of version 4 on a rank.
fn count(rank: u32) -> Seen {
    Seen::Start {
        unit: label(6, 3, rank as u64),
        due: Some(label(6, 1, rank as u64)),
        home: rank,
        reads: None,
        counts: Some(4),
    }
}

fn entry(version: u32, place: u64) -> Option<CellName> {
    Some(CellName { version, place })
}

fn work(command: u32) -> Seen {
    Seen::Work {
        result: Some(label(command, 0, 1)),
    }
}

// By hand: each command on trees starts the unit of the root, and `size` one on each rank and the one that adds.
fn expected() -> [Seen; 13] {
    [
        work(1),
        root(1, None),
        work(2),
        root(2, entry(1, 1)),
        Seen::Fence { dropped: None },
        work(4),
        root(4, entry(2, 1)),
        Seen::Fence { dropped: None },
        work(6),
        count(0),
        count(1),
        Seen::Start {
            unit: label(6, 4, 1),
            due: Some(label(6, 0, 1)),
            home: 0,
            reads: None,
            counts: None,
        },
        Seen::Fence { dropped: None },
    ]
}

#[test]
fn a_job_has_both_bounds(rt: HostRuntime) -> Result<(), Fail> {
    let source =
        b"job 1 depth 2\nproject f step 1 5 2 level 2 tol 0\ncoarsen f\nfence\ncompress f\nfence\nsize f\n";
    let job = match parse(rt.alloc(), source) {
        Ok(job) => job,
        Err(_) => return Err(Fail::from("no job")),
    };
    let app = HaarApp::new(rt.alloc(), job, OwnerMap::Block, 2)?;
    assert!(rt; count_commands(&app) == 6, "six commands");
    let seen = see_commands(rt.alloc(), &app, 2)?;
    assert!(rt; seen.len() == 13, "{} lines", seen.len());
    for (line, expected) in seen.iter().zip(expected()) {
        assert!(rt; *line == expected, "{line:?}, not {expected:?}");
    }
    Ok(())
}
