//! A job that is done in parallel: its commands as units, on the threads of a runtime.
ghost use Rattle.std.specs.Prelude.{◌≡◌, ◌≤◌, IfOk, false, if◌then◌else◌, is_none};
ghost use Rattle.app_core.specs.Commands.{IsRankCount};
ghost use Rattle.tree_model.specs.Jobs.{job_text};
ghost use Rattle.haar_results.specs.Results.{whole_text};
ghost use Rattle.haar_results.specs.RightResults.{AreRightResults};
ghost use Rattle.haar_results.specs.Texts.{made_in};
ghost use Rattle.haar_app.specs.PlannedApps.{job_in};
ghost use Rattle.world_cli.specs.Answers.{done, job_status, overflow};
ghost use Rattle.world_cli.specs.Status.{code_of};

use crate::answer::Answer;
use crate::job_answers::add_overflow;
use crate::status::Status;
use app_core::Gate;
use crew::{Config, run_world};
use haar_app::{HaarApp, JobLines, Value};
use job_lang::Job;
use owner_map::OwnerMap;
use std::alloc::Global;
use std::sync::Wait;
use std::thread::Threads;
use tree_key::OutOfMemory;

// The values of the results of a job's commands, each of them right: one for each command but fences, in order.
fn right_values<G: Gate, R: Wait + Threads + Sync>(
    rt: &R,
    alloc: Global,
    app: &HaarApp,
    config: &Config,
    gate: &G,
) -> Result<Vec<Value>, OutOfMemory>
    requires ranks { config.now.ranks ≡ app.now.ranks }
    requires workers { config.now.workers ≤ 4 }
    requires untraced { config.now.trace ≡ false }
    ensures { IfOk result (λ values. AreRightResults (job_in app.now) values.items) }
{
    Ok(run_world(rt, alloc, app, config, gate)?.values)
}

// The answer that the lines of a job's results are, with the line of the command that overflows, if one does.
fn lines_answer(alloc: Global, lines: JobLines) -> Result<Answer, OutOfMemory>
    ensures status { IfOk result (λ answer. code_of answer.status ≡ (if is_none lines.overflow then done else overflow)) }
    ensures text { IfOk result (λ answer. answer.text ≡ whole_text (made_in lines)) }
{
    let JobLines { text, overflow } = lines;
    match overflow {
        None => Ok(Answer {
            status: Status::Done,
            text,
        }),
        Some(command) => {
            let mut text = text;
            add_overflow(alloc, &mut text, command)?;
            Ok(Answer {
                status: Status::Overflow,
                text,
            })
        }
    }
}

/// The answer to a job that is done by units on ranks, whose hands are threads: the text that it has when it is done
/// serially. It ends with the command that overflows, if one does.
pub fn parallel_job<G: Gate, R: Wait + Threads + Sync>(
    rt: &R,
    alloc: Global,
    job: Job,
    map: OwnerMap,
    config: &Config,
    gate: &G,
) -> Result<Answer, OutOfMemory>
    requires ranks { IsRankCount config.now.ranks }
    requires workers { config.now.workers ≤ 4 }
    requires untraced { config.now.trace ≡ false }
    ensures status { IfOk result (λ answer. code_of answer.status ≡ job_status job) }
    ensures text { IfOk result (λ answer. answer.text ≡ job_text job) }
{
    let app = HaarApp::new(alloc, job, map, config.ranks)?;
    let values = right_values(rt, alloc, &app, config, gate)?;
    let lines = app.lines_of_results(alloc, &values)?;
    lines_answer(alloc, lines)
}
