//! Runs the units of a job on one thread and one rank: a job on the standard input gives the number of units that ran, and
//! then the text of their results. It is there so that the instructions of a unit can be counted.
#![tactic(auto)]

mod driver;
mod table;

use crate::driver::{DriveError, Driver};
use anyhow::{Result, anyhow};
use haar_app::{HaarApp, JobLines};
use job_lang::{Job, parse};
use owner_map::OwnerMap;
use std::alloc::Global;
use std::io;
use std::io::{Read, Write};

// The job of an input.
fn job_of(alloc: Global, input: &[u8]) -> Result<Job> {
    match parse(alloc, input) {
        Ok(job) => Ok(job),
        Err(_) => Err(anyhow!("the input is no job")),
    }
}

// The number of units of a job, and what their results make.
fn drive(alloc: Global, job: Job) -> Result<(u64, JobLines), DriveError> {
    let app = HaarApp::new(alloc, job, OwnerMap::Block, 1)?;
    let mut driver = Driver::new(alloc, &app)?;
    driver.run_job(alloc, &app)?;
    let lines = app.lines_of_results(alloc, driver.results())?;
    Ok((driver.tasks(), lines))
}

fn main(rt: HostRuntime) -> Result<()> {
    let mut input = Vec::new(rt.alloc());
    rt.reader().read_to_end(&mut input)?;
    let job = job_of(rt.alloc(), &input)?;
    let (tasks, lines) = drive(rt.alloc(), job)?;
    println!(rt; "tasks {tasks}")?;
    let mut output = io::writer(&rt);
    output.write_all(lines.text.bytes())?;
    if let Some(command) = lines.overflow {
        println!(rt; "overflow at command {command}")?;
    }
    Ok(())
}
