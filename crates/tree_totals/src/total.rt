//! What commands come to: messages and tasks.
ghost use Rattle.std.specs.Prelude.{◌≡◌, ◌+◌, ◌<◌, ◌≤◌, ◌^◌, Bool, ℕ};
ghost use Rattle.tree_key.specs.Keys.{Key as KeyData};
ghost use Rattle.tree_model.specs.Operations.{coarsened};
ghost use Rattle.tree_model.specs.Shapes.{IsShape};
ghost use Rattle.tree_model.specs.Totals.{Distribution as DistributionData, nothing, over, over_coarsened, plus, size_total, visits_total};
ghost use Rattle.tree_model.specs.Trees.{IsTree, Tree};
ghost use Rattle.tree_totals.specs.Counts.{Counts, total_of};

use crate::shape_count::ShapeCount;

/// A number of messages and a number of tasks.
#[derive(Clone, Copy, Debug, PartialEq, Eq)]
pub struct Total {
    /// How many messages are sent.
    pub messages: u64,
    /// How many tasks run.
    pub tasks: u64,
}

impl Total {
    /// No message and no task.
    pub fn nothing() -> Total
        ensures { total_of result ≡ nothing }
    {
        Total {
            messages: 0,
            tasks: 0,
        }
    }

    /// What a command comes to that goes over the keys of a shape and erases none.
    pub fn of_visits(count: ShapeCount) -> Total
        ensures total { (d : DistributionData) (depth : ℕ) (shape : KeyData → Bool) → IsShape depth shape → Counts d.owner depth shape count →
            total_of result ≡ visits_total d depth (over shape) }
        ensures messages { result.messages ≤ 2 ^ 20 }
        ensures tasks { result.tasks ≤ 2 ^ 20 }
    {
        Total {
            messages: 2 * count.cuts,
            tasks: 3 * count.interior + 1,
        }
    }

    /// What coarsening comes to, from what is counted of the tree before and after.
    pub fn of_coarsening(before: ShapeCount, after: ShapeCount) -> Total
        requires { (d : DistributionData) × (t : Tree) × IsTree t ×
            Counts d.owner t.depth t.shape before × Counts d.owner t.depth (coarsened t).shape after }
        ensures total { (d : DistributionData) (t : Tree) → IsTree t →
            Counts d.owner t.depth t.shape before → Counts d.owner t.depth (coarsened t).shape after →
            total_of result ≡ visits_total d t.depth (over_coarsened t) }
        ensures messages { result.messages ≤ 2 ^ 20 }
        ensures tasks { result.tasks ≤ 2 ^ 20 }
    {
        Total {
            messages: 2 * before.cuts + (before.cuts - after.cuts),
            tasks: 3 * before.interior + 1 + 2 * (before.interior - after.interior),
        }
    }

    /// What a size comes to over 1 to 16 ranks.
    pub fn of_size(ranks: u32) -> Total
        requires some { 1 ≤ ranks }
        requires few { ranks ≤ 16 }
        ensures total { (d : DistributionData) → d.ranks ≡ ranks → total_of result ≡ size_total d }
        ensures messages { result.messages ≤ 2 ^ 20 }
        ensures tasks { result.tasks ≤ 2 ^ 20 }
    {
        let ranks = u64::from(ranks);
        Total {
            messages: 2 * (ranks - 1),
            tasks: ranks + 1,
        }
    }

    /// Both together.
    pub fn plus(self, other: Total) -> Total
        requires messages { self.messages + other.messages < 2 ^ 64 }
        requires tasks { self.tasks + other.tasks < 2 ^ 64 }
        ensures { total_of result ≡ plus (total_of self) (total_of other) }
    {
        Total {
            messages: self.messages + other.messages,
            tasks: self.tasks + other.tasks,
        }
    }
}
