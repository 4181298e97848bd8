//! A run of an application, under the bounds of an application and of a gate.
ghost use Rattle.std.specs.Prelude.{◌≡◌, ◌≤◌, IfOk};
ghost use Rattle.crew.specs.Results.{AreRightValues};

use app_core::{App, Gate};
use crew::{Config, OutOfMemory, run_world};
use std::alloc::Global;
use std::sync::Wait;
use std::thread::Threads;

/// The values of the results of an application that runs on ranks with 0 to 4 workers each: one for each work command, in
/// order, and each right. The number of ranks is that for which the application is made. `OutOfMemory` comes where memory
/// was refused.
pub fn run_on<A: App, G: Gate, R: Threads + Wait + Sync>(
    rt: &R,
    alloc: Global,
    app: &A,
    ranks: u32,
    workers: u32,
    gate: &G,
) -> Result<Vec<A::Value>, OutOfMemory>
    requires ranks { ranks ≡ A.ranks_of app.now }
    requires workers { workers ≤ 4 }
    ensures { IfOk result (λ values. AreRightValues (A.right_value app.now) (A.result_of app.now) (A.kinds_of app.now) values.items) }
{
    let trace = false;
    let config = Config {
        ranks,
        workers,
        trace,
    };
    Ok(run_world(rt, alloc, app, &config, gate)?.values)
}
