//! An application of one rank with a unit that gives a future, and one that needs it.
ghost use Rattle.std.specs.Prelude.{◌≡◌, [], Some, None, ⊤, length, IfOk, refl};
ghost use Rattle.lane_tests.specs.Loans as loans;

use app_core::{App, CellName, CommandKind, Effect, Effects, Facts, Inputs, Label, OutOfMemory};
use std::alloc::Global;

/// A unit: the lender gives what the borrower needs.
#[derive(Clone, Copy, Debug, PartialEq, Eq)]
pub enum Loan {
    Lender,
    Borrower,
}

/// An application for one rank with one command, which starts both units.
#[derive(Clone, Copy, Debug, PartialEq, Eq)]
pub struct Loans;

/// The future that the lender gives.
pub const SUM_LENT: Label = Label {
    command: 1,
    part: 0,
    place: 1,
};

/// The label of the lender.
pub const LENDER: Label = Label {
    command: 1,
    part: 1,
    place: 0,
};

/// The label of the borrower.
pub const BORROWER: Label = Label {
    command: 1,
    part: 2,
    place: 0,
};

impl Facts for Loans {
    ghost ranks_of = { λ _. 1 };

    ghost kinds_of = { λ _. loans.kinds };

    ghost starts_of = { λ _ command. loans.told 1 (loans.starting_of command) };

    ghost may_do = { λ _ label os. loans.MayDo label os };

    ghost may_read = { λ _ _ _. ⊤ };

    ghost may_count = { λ _ _ _. ⊤ };

    ghost right_size = { λ _ _ _ _. ⊤ };

    ghost future_home_of = { λ _ _. 0 };

    ghost entry_home_of = { λ _ _. 0 };

    ghost dropped_of = { λ _ _. [] };
}

impl App for Loans {
    type Unit = Loan;

    type Value = u64;

    type Cell = u32;

    ghost starting_of = { λ _ command _. loans.starting_of command };

    ghost result_of = { λ _ command. loans.result_of command };

    ghost label_of = { λ _ unit. loans.label_of unit };

    ghost due_of = { λ _ unit. loans.due_of unit };

    ghost needs_of = { λ _ unit. loans.needs_of unit };

    ghost home_rule_of = { λ _ _ _. None };

    ghost home_of = { λ _ _ _. 0 };

    ghost kept_rule_of = { λ _ _ _. None };

    ghost kept_at = { λ _ _ _. 0 };

    ghost reads_of = { λ _ _. [] };

    ghost counts_of = { λ _ _. None };

    ghost step_of = { λ _ unit _. loans.step_of unit };

    ghost is_unit = { λ _ _. ⊤ };

    ghost right_value = { λ _ _ _. ⊤ };

    ghost right_cell = { λ _ _ _. ⊤ };

    ghost few_commands = { λ _. loans.few_commands };

    ghost result_of_work = { λ _ command is. loans.results command is };

    ghost few_starts = { λ _ command _ is _. loans.few_starts command is };

    ghost starts_are_spawns = { λ _ command _ is _. loans.starts_are_spawns command is };

    ghost starts_are_right = { λ _ command is. loans.starts_are_right command is };

    ghost starts_have_their_needs = { λ _ command _ is _. loans.starts_have_their_needs command is };

    ghost starts_with_needs_run_at_zero = { λ _ command ranks is _. loans.starts_with_needs_run_at_zero ranks command is };

    ghost starts_name_their_command = { λ _ command ranks future is _ names. loans.starts_name_their_command ranks command future is names };

    ghost starts_have_a_due_once = { λ _ command ranks future is _ names. loans.starts_have_a_due_once ranks command future is names };

    ghost starts_need_others_once = { λ _ command ranks future is _ names _. loans.starts_need_others_once ranks command future is names };

    ghost starts_never_need_the_result = { λ _ command ranks is _. loans.starts_never_need_the_result ranks command is };

    ghost label_tells_due = { λ _ unit other _ _ same. loans.label_tells_due unit other same };

    ghost label_tells_home = { λ _ _ _ _ _ _ _ _. refl };

    ghost home_below = { λ _ _ ranks count. loans.zero_below ranks count };

    ghost home_by_rule = { λ _ _ _ _. refl };

    ghost future_home_below = { λ _ _ ranks count. loans.zero_below ranks count };

    ghost future_home_by_rule = { λ _ _ _ _. refl };

    ghost needs_are_kept_at_home = { λ _ _ _ _ _ _ _. refl };

    ghost few_reads = { λ _ _ _. loans.few_reads };

    ghost few_effects = { λ _ unit _ _ _. loans.few_effects unit };

    ghost spawns_have_their_needs = { λ _ unit _ _ _. loans.spawns_have_their_needs unit };

    ghost spawns_with_needs_stay = { λ _ unit _ ranks _ _ _. loans.spawns_with_needs_stay ranks unit };

    ghost due_is_seen_to_once = { λ _ unit _ _ _. loans.due_is_seen_to_once unit };

    ghost due_is_needed_never = { λ _ unit _ _ _. loans.due_is_needed_never unit };

    ghost only_the_due_is_given = { λ _ unit _ _ _. loans.only_the_due_is_given unit };

    ghost spawns_have_a_due_once = { λ _ unit _ future _ _ names _. absurd (loans.steps_name_none unit future names) };

    ghost spawns_need_others_once = { λ _ unit _ future _ _ names _. absurd (loans.steps_name_none unit future names) };

    ghost entry_has_one_home = { λ _ _ _ _ _ _ _ _ _ _ _ _ _ _. refl };

    ghost step_is_right = { λ _ unit _ _ _. loans.step_is_right unit };

    ghost made_for_ranks = { λ _. loans.one_rank };

    ghost starts_are_told = { λ _ _ _. refl };

    ghost steps_are_told = { λ _ unit _ _ _. (unit, refl, refl) };

    ghost allowed_is_a_step = { λ _ _ _ may. loans.allowed_is_a_step _ _ may };

    ghost futures_are_told = { λ _ _. refl };

    ghost reads_are_told = { λ _ _ _ _ _. tt };

    ghost counts_are_told = { λ _ _ _. tt };

    ghost reads_are_at_home = { λ _ _ _ _ _. refl };

    ghost writes_are_at_home = { λ _ _ _ _ _ _ _. refl };

    fn commands(&self) -> u32 {
        1
    }

    fn kind(&self, _command: u32) -> CommandKind {
        CommandKind::Work
    }

    fn starts(
        &self,
        alloc: Global,
        _command: u32,
        _ranks: u32,
    ) -> Result<Effects<Loan, u64, u32>, OutOfMemory> {
        let mut effects = Effects::new(alloc);
        effects.push(Effect::Spawn(Loan::Lender))?;
        effects.push_needing(Loan::Borrower, &[SUM_LENT])?;
        Ok(effects)
    }

    fn result(&self, _command: u32) -> Option<Label> {
        Some(Label {
            command: 1,
            part: 0,
            place: 0,
        })
    }

    fn label(&self, unit: &Loan) -> Label {
        match unit {
            Loan::Lender => LENDER,
            Loan::Borrower => BORROWER,
        }
    }

    fn due(&self, unit: &Loan) -> Option<Label> {
        match unit {
            Loan::Lender => Some(SUM_LENT),
            Loan::Borrower => None,
        }
    }

    fn home(&self, _unit: &Loan, _ranks: u32) -> u32 {
        0
    }

    fn future_home(&self, _future: &Label, _ranks: u32) -> u32 {
        0
    }

    fn reads(&self, _unit: &Loan, _index: u32) -> Option<CellName> {
        None
    }

    fn counts(&self, _unit: &Loan) -> Option<u32> {
        None
    }

    fn step(
        &self,
        alloc: Global,
        unit: Loan,
        inputs: Inputs<u64, u32>,
    ) -> Result<Effects<Loan, u64, u32>, OutOfMemory>
        requires unit { ⊤ }
        requires values { length inputs.values ≡ length (loans.needs_of unit) }
        requires cells { length inputs.cells ≡ 0 }
        ensures { IfOk result (λ e. e ≡ loans.step_of unit) }
    {
        let _ = inputs.size();
        let mut effects = Effects::new(alloc);
        if unit == Loan::Lender {
            effects.push(Effect::Give(SUM_LENT, 7))?;
        }
        Ok(effects)
    }

    fn dropped(&self, _fence: u32, _index: u32) -> Option<u32> {
        None
    }

    fn copy_value(&self, _alloc: Global, value: &u64) -> Result<u64, OutOfMemory> {
        Ok(*value)
    }
}
