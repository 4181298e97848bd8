//! The units that commands start.
ghost use Rattle.std.specs.Prelude.{◌≡◌, ◌++◌, ◌∷◌, [], IfOk, OnOk};
ghost use Rattle.app_core.specs.Commands.{IsRankCount};
ghost use Rattle.haar_units.specs.Units.{count_futures};
ghost use Rattle.haar_steps.specs.Effects as made;
ghost use Rattle.haar_steps.specs.Starts as starts;

use crate::commands::Commands;
use crate::effects::{HaarEffects, one_effect};
use crate::names;
use app_core::{Effect, Effects, Label, OutOfMemory};
use haar_base::{Down, Operation, Sides, Unit};
use haar_visits::visits::root_sides;
use smallvec::SmallVec;
use std::alloc::Global;
use tree_key::Key;

// The down unit of the root.
fn root_starts(
    alloc: Global,
    command: u32,
    sides: Option<Sides>,
) -> Result<HaarEffects, OutOfMemory>
    ensures { IfOk result (λ e. e ≡ starts.start_at_root command sides) }
{
    match sides {
        None => Ok(Effects::new(alloc)),
        Some(sides) => {
            let down = Down {
                command,
                key: Key::root(),
                first: sides.first,
                second: sides.second,
            };
            one_effect(alloc, Effect::Spawn(Unit::Down(down)))
        }
    }
}

// The futures of the counts of all ranks.
fn counts(alloc: Global, command: u32, ranks: u32) -> Result<SmallVec<Label, 16>, OutOfMemory>
    ensures { IfOk result (λ labels. labels.items ≡ count_futures command 0 ranks) }
{
    let mut labels: SmallVec<Label, 16> = SmallVec::new(alloc);
    for rank in 0..ranks {
        labels.push(names::counted(command, rank))?;
    }
    Ok(labels)
}

// Adds an effect last, where a spawn is of a unit that needs the counts of all ranks.
fn push_total<U: Drop, V: Drop, C: Drop>(
    alloc: Global,
    effects: &mut Effects<U, V, C>,
    effect: Effect<U, V, C>,
    command: u32,
    ranks: u32,
) -> Result<(), OutOfMemory>
    requires { IsRankCount ranks }
    ensures { OnOk result (effects.new ≡ effects.old ++ made.needing (count_futures command 0 ranks) effect ∷ []) }
{
    let labels = counts(alloc, command, ranks)?;
    match effect {
        Effect::Spawn(unit) => effects.push_needing(unit, labels.as_slice()),
        other => effects.push(other),
    }
}

// Adds the units that count the entries of each rank last.
fn push_counts(effects: &mut HaarEffects, command: u32, ranks: u32) -> Result<(), OutOfMemory>
    ensures { OnOk result (effects.new ≡ effects.old ++ starts.spawn_counts command 0 ranks) }
{
    for rank in 0..ranks {
        effects.push(Effect::Spawn(Unit::Count { command, rank }))?;
    }
    Ok(())
}

// The units that count the entries of each rank, and the one that adds what they give.
fn size_starts(alloc: Global, command: u32, ranks: u32) -> Result<HaarEffects, OutOfMemory>
    requires { IsRankCount ranks }
    ensures { IfOk result (λ e. e ≡ starts.size_starts command ranks) }
{
    let mut effects = Effects::new(alloc);
    push_counts(&mut effects, command, ranks)?;
    let total = Effect::Spawn(Unit::Total { command, ranks });
    push_total(alloc, &mut effects, total, command, ranks)?;
    Ok(effects)
}

impl Commands {
    /// The spawns of a work command, which the main of rank 0 makes.
    pub fn starts(
        &self,
        alloc: Global,
        command: u32,
        ranks: u32,
    ) -> Result<HaarEffects, OutOfMemory>
        requires { IsRankCount ranks }
        ensures { IfOk result (λ e. e ≡ starts.starting_of self.now.operations.items command ranks) }
    {
        match self.operation(command) {
            None => Ok(Effects::new(alloc)),
            Some(Operation::Size { .. }) => size_starts(alloc, command, ranks),
            Some(operation) => root_starts(alloc, command, root_sides(operation)),
        }
    }
}
