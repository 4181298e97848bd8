//! Plans, as the list of their steps.
ghost use Rattle.std.specs.Prelude.{◌≡◌, ℕ, [], get_or};
ghost use Rattle.job_data.specs.Drops.{dropped_at};

use job_data::{Drops, Step};
use std::marker::Model;

/// What the commands of a job read and write, command by command, and the versions that are dropped at each fence.
#[derive(Drop)]
pub struct Plan {
    steps: Vec<Step>,
    drops: Drops,
}

impl Model for Plan {
    ghost use Rattle.std.specs.Prelude.{◌≡◌, ℕ, List, [], get_or};
    ghost use Rattle.job_data.specs.Drops.{dropped_at};
    ghost use Rattle.job_data.specs.declared.step.Step.{Step};

    ghost Value = { List Step };

    ghost view = { λ p. p.steps.items };

    ghost invariant = { λ p. (fence : ℕ) → get_or p.drops fence [] ≡ dropped_at p.steps.items fence };
}

impl Plan {
    /// A plan of its steps and the versions that are dropped at their fences. It takes no memory.
    pub fn new(steps: Vec<Step>, drops: Drops) -> Plan
        requires { (fence : ℕ) → get_or drops fence [] ≡ dropped_at steps.items fence }
        ensures { result ≡ steps.items }
    {
        Plan { steps, drops }
    }

    /// A step for each command, in order.
    pub fn steps(&self) -> &[Step]
        ensures { result.now ≡ self.now }
    {
        &self.steps
    }

    /// The versions that are dropped at the fence of a number, in order: those that were written before it and that no
    /// command after it reads, but for those that a fence before it drops. Fences are numbered from 1, and the end of the
    /// job is one more.
    pub fn dropped_at(&self, fence: u32) -> &[u32]
        ensures { result.now ≡ dropped_at self.now fence }
    {
        self.drops.at(fence)
    }
}
