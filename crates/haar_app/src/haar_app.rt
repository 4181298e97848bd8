//! The tree application of a job.
ghost use Rattle.std.specs.Prelude.{◌≡◌};
ghost use Rattle.app_core.specs.Commands.{IsRankCount};
ghost use Rattle.haar_app.specs.KeptPlans.{IsKept, kept_prop};
ghost use Rattle.haar_app.specs.Planning.{planned};

use haar_steps::Commands;
use job_data::Job;
use owner_map::OwnerMap;

/// The tree application of a job, for an owner map and a number of ranks from 1 to 16. Each operation is what the job's
/// plan says of the command of its number (`is_kept`).
#[derive(Drop)]
pub struct HaarApp {
    pub job: Job,
    /// What each command does, in order.
    pub commands: Commands,
    pub map: OwnerMap,
    pub ranks: u32,
    pub ghost in_range: { IsRankCount ranks },
    pub ghost same_depth: { commands.depth ≡ job.depth },
    pub ghost is_kept: { IsKept (planned job commands.depth commands.operations.items map ranks) } by { kept_prop (planned job commands.depth commands.operations.items map ranks) },
}
