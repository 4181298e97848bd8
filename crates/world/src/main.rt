//! The program `world`: see `world_cli::world_main` for its words, its input and its statuses.
#![tactic(auto)]

use app_core::NoGate;
use outside::{StdSink, StdSource};
use std::alloc::Global;
use std::process::ExitCode;
use std::rt::Env;
use std::{env, io};
use world_cli::world_main;

/// The status of `OutOfMemory`, where it comes before there are words.
const OUT_OF_MEMORY: u8 = 4;

// The words after the program's name. Words that aren't text are in no listed form, and so are no words.
fn words(rt: &(impl Env + AllocGlobal)) -> io::Result<Vec<String>> {
    match env::args(rt) {
        Ok(args) => Ok(args.skip(1).collect(rt.alloc())?),
        Err(error) if error.kind() == io::ErrorKind::InvalidData => Ok(Vec::new(rt.alloc())),
        Err(error) => Err(error),
    }
}

fn main(rt: HostRuntime) -> ExitCode {
    let Ok(words) = words(&rt) else {
        return ExitCode::from(OUT_OF_MEMORY);
    };
    let mut source = StdSource::new(rt.reader());
    let mut sink = StdSink::new(io::writer(&rt));
    let status = world_main(&rt, rt.alloc(), &words, &mut source, &mut sink, &NoGate);
    ExitCode::from(status)
}
