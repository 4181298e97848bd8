//! Both tables of a rank.
ghost use Rattle.std.specs.Prelude.{◌≡◌, []};

use crate::future_table::FutureTable;
use crate::task_table::TaskTable;
use app_core::{App, Naming};
use std::alloc::Global;

/// The futures and the waiting tasks of a rank, for one lock.
#[derive(Drop)]
pub struct RankTables<A: App, J: Naming<A>> {
    pub futures: FutureTable<A, J>,
    pub tasks: TaskTable<A, J>,
}

impl<A: App, J: Naming<A>> RankTables<A, J> {
    /// Empty tables.
    pub fn new(alloc: Global) -> RankTables<A, J>
        ensures futures { result.futures ≡ [] }
        ensures tasks { result.tasks ≡ [] }
    {
        RankTables {
            futures: FutureTable::new(alloc),
            tasks: TaskTable::new(alloc),
        }
    }
}
