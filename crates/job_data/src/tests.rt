//! Which depths and commands make a job.
use super::*;
use haar_node::Func;
use job_words::Name;
use std::alloc::Global;
use std::test::Fail;
use tree_key::OutOfMemory;

// Whether a projection of `f`, `compress` of a name and a sum make a job at depth 2. None where there is no such name.
fn is_job(alloc: Global, word: &[u8], factor: i64) -> Result<Option<bool>, OutOfMemory> {
    let (Some(f), Some(name)) = (Name::of_word(b"f"), Name::of_word(word)) else {
        return Ok(None);
    };
    let mut commands = Vec::new(alloc);
    commands.push(Command::Project {
        name: f,
        function: Func::Step(1, 7, -7),
        level: 2,
        tolerance: 33_554_432,
    })?;
    commands.push(Command::Compress { name })?;
    commands.push(Command::Add {
        name: f,
        left_factor: factor,
        left: f,
        right_factor: 0,
        right: f,
    })?;
    Ok(Some(Job::of_commands(2, commands).is_some()))
}

#[test]
fn makes_jobs_of_commands(rt: HostRuntime) -> Result<(), Fail> {
    let cases = [
        (b"f", 1 << 20, Some(true)),
        (b"f", (1 << 20) + 1, Some(false)),
        (b"g", 1, Some(false)),
        (b"F", 1, None),
    ];
    for (name, factor, want) in cases {
        assert_eq!(rt; is_job(rt.alloc(), name, factor)?, want, "at {name:?}");
    }
    Ok(())
}
