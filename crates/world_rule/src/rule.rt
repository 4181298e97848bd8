//! The rule of the table.
use crate::view::View;
use app_core::Facts;
use atomic_table::TableRule;
use std::snapshot::Snapshot;

/// What the table is told when it is made: the application, the number of ranks, and that of workers at each rank.
#[derive(Drop)]
pub struct Setup<A> {
    pub app: Snapshot<A>,
    pub ranks: u32,
    pub workers: u32,
}

/// Words and views show one list of events that is legal and follows the application.
pub struct WordsRule;

impl<A: Facts> TableRule<(), View, Setup<A>> for WordsRule {
    ghost use Rattle.world_rule.specs.Shows.{ShowsOneRun, root};
    ghost use Rattle.event_laws.specs.Follows.{program_from};

    ghost holds = { λ about s. ShowsOneRun about.ranks about.workers (program_from 1 (A.kinds_of about.app.value) (A.starts_of about.app.value)) (A.may_do about.app.value) s };

    ghost first = { λ about. root about.ranks about.workers };
}
