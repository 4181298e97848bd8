//! Generated jobs, printed and read.
use crate::big_job;
use job_data::Command;
use job_lang::{ParseError, parse, print};
use std::alloc::Global;
use std::test::Fail;

// The depth, how many commands and trees there are, and whether the last command counts keys, of what the canonical text of
// a number's job reads as.
fn read_back(alloc: Global, number: u32) -> Result<(u8, usize, u32, bool), ParseError> {
    let job = big_job(alloc, number)?;
    let text = print(alloc, &job)?;
    let read = parse(alloc, &text)?;
    let counts = matches!(read.commands(), [.., Command::Size { .. }]);
    Ok((read.depth(), read.command_count(), read.trees(), counts))
}

#[test]
fn texts_read_as_jobs_of_18_commands(rt: HostRuntime) -> Result<(), Fail> {
    for number in [0, 7, 999, 1000, 4095, 4096, u32::MAX] {
        assert_eq!(rt;
            read_back(rt.alloc(), number),
            Ok((12, 18, 5, true)),
            "at {number}"
        );
    }
    Ok(())
}

#[test]
fn the_text_of_seven(rt: HostRuntime) -> Result<(), Fail> {
    let want = b"job 1 depth 12
project f hash 7 1000 level 4 tol 500
project g ramp 7 1 level 2 tol 16
project h box 7 4096 7 level 6 tol 0
fence
compress f
compress g
compress h
add p = 2 f + -1 g
inner f g
inner p h
fence
reconstruct p
reconstruct h
mul q = p * h
fence
coarsen q
fence
size q
";
    let text = print(rt.alloc(), &big_job(rt.alloc(), 7)?)?;
    assert_eq!(rt; text.as_slice(), want.as_slice());
    Ok(())
}
