//! The steps of units.
ghost use Rattle.std.specs.Prelude.{◌≡◌, IfOk};
ghost use Rattle.haar_steps.specs.Effects as made;
ghost use Rattle.haar_steps.specs.Steps as steps;

use crate::commands::Commands;
use crate::effects::{HaarEffects, combination_effects, one_effect, visit_effects};
use crate::names;
use app_core::{Effect, Inputs, OutOfMemory};
use haar_base::decisions::bad_visit;
use haar_base::{Down, Side, Sides, Unit, Up, Value};
use haar_node::Node;
use haar_visits::sizing;
use haar_visits::visits::{combine, visit};
use std::alloc::Global;

// The cell of the first tree, where it is read.
fn first_cell(side: Side, cells: &[Node]) -> Option<Node>
    ensures { result ≡ steps.first_cell side cells.now }
{
    match side {
        Side::Nothing => None,
        Side::Entry(_) => cells.get(0).copied(),
        Side::Below(_) => None,
    }
}

// The cell of the second tree, which comes after that of the first where that one is read.
fn second_cell(first: Side, cells: &[Node]) -> Option<Node>
    ensures { result ≡ steps.second_cell first cells.now }
{
    match first {
        Side::Nothing => cells.get(0).copied(),
        Side::Entry(_) => cells.get(1).copied(),
        Side::Below(_) => cells.get(0).copied(),
    }
}

// The two values that an up unit needs.
fn pair_of(values: Vec<Value>) -> (Value, Value)
    ensures { result ≡ steps.pair_of values.items }
{
    let mut values = values;
    if values.len() != 2 {
        return (Value::Bad, Value::Bad);
    }
    let right = values.pop().unwrap_or(Value::Bad);
    let left = values.pop().unwrap_or(Value::Bad);
    (left, right)
}

impl Commands {
    // The effects of a down unit.
    fn step_down(
        &self,
        alloc: Global,
        down: &Down,
        cells: &[Node],
    ) -> Result<HaarEffects, OutOfMemory>
        ensures { IfOk result (λ e. e ≡ made.visit_effects down.now.command down.now.key (steps.visit_of self.now.depth self.now.operations.items down.now cells.now)) }
    {
        if down.key.level() <= self.depth {
            let operation = self.known(down.command, true);
            let first = first_cell(down.first, cells);
            let second = second_cell(down.first, cells);
            let sides = Sides {
                first: down.first,
                second: down.second,
            };
            let visited = visit(
                alloc, self.depth, operation, down.key, &sides, first, second,
            )?;
            visit_effects(alloc, down.command, down.key, visited)
        } else {
            visit_effects(alloc, down.command, down.key, bad_visit(false))
        }
    }

    // The effects of an up unit.
    fn step_up(
        &self,
        alloc: Global,
        up: &Up,
        values: Vec<Value>,
    ) -> Result<HaarEffects, OutOfMemory>
        ensures { IfOk result (λ e. e ≡ made.combination_effects up.now.command up.now.key (steps.combination_of self.now.depth self.now.operations.items up.now values.items)) }
    {
        let operation = self.known(up.command, up.key.level() < self.depth);
        let (left, right) = pair_of(values);
        let combination = combine(alloc, self.depth, operation, up.key, &up.held, left, right)?;
        combination_effects(alloc, up.command, up.key, combination)
    }

    /// The effects of a unit on its inputs, whatever they are.
    pub fn step(
        &self,
        alloc: Global,
        unit: Unit,
        inputs: Inputs<Value, Node>,
    ) -> Result<HaarEffects, OutOfMemory>
        ensures { IfOk result (λ e. e ≡ steps.step_of self.now.depth self.now.operations.items unit inputs) }
    {
        match unit {
            Unit::Down(down) => self.step_down(alloc, &down, inputs.cells()),
            Unit::Up(up) => {
                let (values, _) = inputs.into_parts();
                self.step_up(alloc, &up, values)
            }
            Unit::Clear { command, key } => {
                one_effect(alloc, Effect::Erase(names::entry(command, key)))
            }
            Unit::Count { command, rank } => {
                let value = Value::Count(inputs.size());
                one_effect(alloc, Effect::Give(names::counted(command, rank), value))
            }
            Unit::Total { command, ranks: _ } => {
                let value = sizing::total(inputs.values());
                one_effect(alloc, Effect::Give(names::result(command), value))
            }
        }
    }
}
