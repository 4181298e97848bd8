//! What `parse` returns, at texts whose readings were worked out by hand.
use super::*;
use haar_node::Func;
use std::alloc::{AllocError, Global};
use std::process::Abort;
use std::test::Fail;

// The depth and the number of commands, or why there is no job.
fn outcome(alloc: Global, text: &[u8]) -> Result<(u8, usize), ParseError> {
    let job = parse(alloc, text)?;
    Ok((job.depth(), job.commands().len()))
}

fn fault(line: u64, kind: FaultKind) -> Result<(u8, usize), ParseError> {
    Err(ParseError::Fault(JobFault { line, kind }))
}

// A header, and a line so many times.
fn repeated(alloc: Global, line: &[u8], count: u32) -> Result<Vec<u8>, AllocError> {
    let mut text = b"job 1 depth 0\n".to_vec(alloc)?;
    for _ in 0..count {
        text.extend_from_slice(line)?;
    }
    Ok(text)
}

// A header, and a command for each of so many trees.
fn trees(alloc: Global, count: u32) -> Result<Vec<u8>, AllocError> {
    let mut text = b"job 1 depth 0\n".to_vec(alloc)?;
    for at in 0..count {
        let line = format!(in alloc; "project t{at} const 1 level 0 tol 0\n")?;
        text.extend_from_slice(line.as_bytes())?;
    }
    Ok(text)
}

// What is wanted of each text.
type Case<'a> = (&'a [u8], Result<(u8, usize), ParseError>);

fn expect_outcomes(rt: &impl Abort, alloc: Global, cases: &[Case]) {
    for (text, want) in cases {
        assert_eq!(rt; outcome(alloc, text), *want, "at {text:?}");
    }
}

#[test]
fn finds_the_header(rt: HostRuntime) {
    let cases: [Case; 7] = [
        (b"", fault(1, FaultKind::NoHeader)),
        (b"\n\n", fault(3, FaultKind::NoHeader)),
        (b"job 1 depth 16", Ok((16, 0))),
        (b"job 1 depth 17\n", fault(1, FaultKind::NoHeader)),
        (b"job 1 depth 2 \xff\n", fault(1, FaultKind::ForeignByte)),
        (b"# \xff\x00\xc3\x28\njob 1 depth 2\n#\xff", Ok((2, 0))),
        (
            b"job 1 depth 2\nfence\njob 1 depth 2\n",
            fault(3, FaultKind::UnknownCommand),
        ),
    ];
    expect_outcomes(&rt, rt.alloc(), &cases);
}

#[test]
fn reads_lines_and_words(rt: HostRuntime) {
    let line_feeds = b"\n# a\njob 1 depth 2\nproject f ramp 0 1 level 0 tol 0\nprint f\n";
    let returns = b"job 1 depth 2\r\nproject f const 5 level 2 tol 3\r\n\r\nprint f\r\n";
    let tabs = b"\tjob\t1 depth  2\t\n \tproject\tf const 5 level 2 tol 3\n\tprint f \n";
    let return_at_end = b"job 1 depth 2\nproject f const 5 level 2 tol 3\nprint f\r";
    let not_ascii = b"job 1 depth 2\nproject \xc3\xa9 const 5 level 2 tol 3\n";
    let cases: [Case; 6] = [
        (line_feeds, Ok((2, 2))),
        (returns, Ok((2, 2))),
        (tabs, Ok((2, 2))),
        (return_at_end, fault(3, FaultKind::ForeignByte)),
        (not_ascii, fault(2, FaultKind::ForeignByte)),
        (
            b"job 1 depth 2\nprint f\n",
            fault(2, FaultKind::UnknownTree),
        ),
    ];
    expect_outcomes(&rt, rt.alloc(), &cases);
}

#[test]
fn refuses_one_command_too_many(rt: HostRuntime) -> Result<(), Fail> {
    let alloc = rt.alloc();
    let line = b"project f const 1 level 0 tol 0\n";
    assert_eq!(rt; outcome(alloc, &repeated(alloc, line, 32)?), Ok((0, 32)));
    assert_eq!(rt;
        outcome(alloc, &repeated(alloc, line, 33)?),
        fault(34, FaultKind::FarFromFence)
    );
    assert_eq!(rt;
        outcome(alloc, &repeated(alloc, b"fence\n", 512)?),
        Ok((0, 512))
    );
    assert_eq!(rt;
        outcome(alloc, &repeated(alloc, b"fence\n", 513)?),
        fault(514, FaultKind::BeyondLimits)
    );
    assert_eq!(rt; outcome(alloc, &trees(alloc, 16)?), Ok((0, 16)));
    assert_eq!(rt;
        outcome(alloc, &trees(alloc, 17)?),
        fault(18, FaultKind::BeyondLimits)
    );
    Ok(())
}

// A header, a tree, and so many times a fence and a `print` of the tree.
fn prints(alloc: Global, count: u32) -> Result<Vec<u8>, AllocError> {
    let mut text = b"job 1 depth 0\nproject f const 1 level 0 tol 0\n".to_vec(alloc)?;
    for _ in 0..count {
        text.extend_from_slice(b"fence\nprint f\n")?;
    }
    Ok(text)
}

#[test]
fn refuses_one_print_too_many(rt: HostRuntime) -> Result<(), Fail> {
    let alloc = rt.alloc();
    assert_eq!(rt; outcome(alloc, &prints(alloc, 64)?), Ok((0, 129)));
    assert_eq!(rt;
        outcome(alloc, &prints(alloc, 65)?),
        fault(132, FaultKind::BeyondLimits)
    );
    Ok(())
}

#[test]
fn answers_large_texts(rt: HostRuntime) -> Result<(), Fail> {
    let alloc = rt.alloc();
    let comment = vec![in alloc; b'#'; 1_048_577]?;
    assert_eq!(rt; outcome(alloc, &comment), fault(2, FaultKind::NoHeader));
    let empty_lines = vec![in alloc; b'\n'; 1_048_577]?;
    assert_eq!(rt;
        outcome(alloc, &empty_lines),
        fault(1_048_578, FaultKind::NoHeader)
    );
    let words = repeated(alloc, b"a ", 500_000)?;
    assert_eq!(rt; outcome(alloc, &words), fault(2, FaultKind::UnknownCommand));
    let comments = repeated(alloc, b"# a\n", 250_000)?;
    assert_eq!(rt; outcome(alloc, &comments), Ok((0, 0)));
    Ok(())
}

#[test]
fn keeps_what_a_command_says(rt: HostRuntime) -> Result<(), Fail> {
    let job = parse(
        rt.alloc(),
        b"job 1 depth 3\nproject a_1 ramp -7 2 level 1 tol 9\n",
    )?;
    let [command] = job.commands() else {
        return Err(Fail::from("not one command"));
    };
    let Command::Project {
        name,
        function,
        level,
        tolerance,
    } = *command
    else {
        return Err(Fail::from("not a project"));
    };
    assert_eq!(rt; name.bytes(), b"a_1".as_slice());
    assert_eq!(rt; function, Func::Ramp(-7, 2));
    assert_eq!(rt; (level, tolerance), (1, 9));
    Ok(())
}

#[test]
fn prints_faults(rt: HostRuntime) -> Result<(), Fail> {
    let fault = ParseError::Fault(JobFault {
        line: 4,
        kind: FaultKind::UnknownCommand,
    });
    assert_eq!(rt;
        fault.to_string(rt.alloc())?.as_str(),
        "fault line 4 F3 unknown command"
    );
    let memory = ParseError::OutOfMemory;
    assert_eq!(rt; memory.to_string(rt.alloc())?.as_str(), "out of memory");
    Ok(())
}

// A job with each command, in a text that isn't canonical, and its canonical text.
const LOOSE: &[u8] =
    b"job 1  depth 02\n# a\n\nproject f const -0 level 1 tol 007\nproject g ramp -1 2 level 0 tol 0\nproject h box 0 2 -5 level 0 tol 0\nproject i step 3 -1 1 level 0 tol 0\nproject j hash 4294967295 16777216 level 0 tol 0\nrefine f 2\ncoarsen  f\ncompress f\r\ncompress g\nadd s = -3 f + 04 g\ninner f\ts\nreconstruct s\nmul m = s * s\nfence\nprint m\n\tsize m";

const CANONICAL: &[u8] =
    b"job 1 depth 2\nproject f const 0 level 1 tol 7\nproject g ramp -1 2 level 0 tol 0\nproject h box 0 2 -5 level 0 tol 0\nproject i step 3 -1 1 level 0 tol 0\nproject j hash 4294967295 16777216 level 0 tol 0\nrefine f 2\ncoarsen f\ncompress f\ncompress g\nadd s = -3 f + 4 g\ninner f s\nreconstruct s\nmul m = s * s\nfence\nprint m\nsize m\n";

#[test]
fn prints_canonical_texts(rt: HostRuntime) -> Result<(), Fail> {
    let job = parse(rt.alloc(), LOOSE)?;
    let text = print(rt.alloc(), &job)?;
    assert!(rt; text.as_slice() == CANONICAL);
    assert!(rt; trace_fits(&job));
    Ok(())
}

#[test]
fn plans_commands(rt: HostRuntime) -> Result<(), Fail> {
    let job = parse(rt.alloc(), LOOSE)?;
    let plan = plan(rt.alloc(), &job)?;
    let steps = plan.steps();
    assert_eq!(rt; steps.len(), 16);
    let add = Step {
        reads: Sources::Two(8, 9),
        writes: Some(10),
        fence: 1,
    };
    assert_eq!(rt; steps[9], add);
    let print = Step {
        reads: Sources::One(13),
        writes: None,
        fence: 2,
    };
    assert_eq!(rt; steps[14], print);
    assert_eq!(rt;
        plan.dropped_at(1),
        [1, 2, 3, 4, 5, 6, 7, 8, 9, 10, 12].as_slice()
    );
    assert_eq!(rt; plan.dropped_at(2), [13].as_slice());
    assert_eq!(rt; plan.dropped_at(3).len(), 0);
    Ok(())
}
