//! The effects of what units decide for.
ghost use Rattle.std.specs.Prelude.{◌≡◌, ◌≢◌, ◌<◌, ◌++◌, ◌∷◌, [], IfOk, OnOk};
ghost use Rattle.haar_steps.specs.Effects.{needing, puts, spawn_down, spawn_up, spawn_clear, gives, visit_effects, combination_effects};

use crate::names::{down, entry};
use app_core::{Effect, Effects, Label, OutOfMemory};
use haar_base::decisions::{Combination, Visit};
use haar_base::{Down, Held, Sides, Unit, Up, Value};
use haar_node::{MAX_DEPTH, Node};
use std::alloc::Global;
use tree_key::Key;

/// Effects of units.
pub type HaarEffects = Effects<Unit, Value, Node>;

// Puts the node of a key, where there is one.
fn put(
    effects: &mut HaarEffects,
    command: u32,
    key: Key,
    node: Option<Node>,
) -> Result<(), OutOfMemory>
    ensures { OnOk result (effects.new ≡ effects.old ++ puts command key node) }
{
    match node {
        Some(node) => effects.push(Effect::Put(entry(command, key), node)),
        None => Ok(()),
    }
}

// Gives the future of a key this value.
fn give(effects: &mut HaarEffects, command: u32, key: Key, value: Value) -> Result<(), OutOfMemory>
    ensures { OnOk result (effects.new ≡ effects.old ++ gives command key value ∷ []) }
{
    effects.push(Effect::Give(down(command, key), value))
}

// Spawns the unit that visits a key.
fn visit(effects: &mut HaarEffects, command: u32, key: Key, sides: Sides) -> Result<(), OutOfMemory>
    ensures { OnOk result (effects.new ≡ effects.old ++ spawn_down command key sides ∷ []) }
{
    effects.push(Effect::Spawn(Unit::Down(Down {
        command,
        key,
        first: sides.first,
        second: sides.second,
    })))
}

// Adds an effect last, where a spawn is of a unit that needs two futures. The borrow of the labels isn't covered beside
// the units of this crate, so it is generic in them.
#[inline(always)]
fn push_waiting<U: Drop, V: Drop, C: Drop>(
    effects: &mut Effects<U, V, C>,
    effect: Effect<U, V, C>,
    first: Label,
    second: Label,
) -> Result<(), OutOfMemory>
    requires { first ≢ second }
    ensures { OnOk result (effects.new ≡ effects.old ++ needing (first ∷ second ∷ []) effect ∷ []) }
{
    match effect {
        Effect::Spawn(unit) => effects.push_needing(unit, &[first, second]),
        other => effects.push(other),
    }
}

// Spawns the unit that combines what the children of a key give.
fn combine(effects: &mut HaarEffects, command: u32, key: Key, held: Held) -> Result<(), OutOfMemory>
    requires { key.level < 16 }
    ensures { OnOk result (effects.new ≡ effects.old ++ spawn_up command key held ∷ []) }
{
    let first = down(command, key.child(false));
    let second = down(command, key.child(true));
    let up = Effect::Spawn(Unit::Up(Up { command, key, held }));
    push_waiting(effects, up, first, second)
}

// Spawns the unit that erases the entry of a key.
fn clear(effects: &mut HaarEffects, command: u32, key: Key) -> Result<(), OutOfMemory>
    ensures { OnOk result (effects.new ≡ effects.old ++ spawn_clear command key ∷ []) }
{
    effects.push(Effect::Spawn(Unit::Clear { command, key }))
}

/// The effects of a down unit.
pub fn visit_effects(
    alloc: Global,
    command: u32,
    key: Key,
    visited: Visit,
) -> Result<HaarEffects, OutOfMemory>
    ensures { IfOk result (λ effects. effects ≡ visit_effects command key visited) }
{
    let mut effects = Effects::with_capacity(alloc, 4)?;
    match visited {
        Visit::Give { node, value } => {
            put(&mut effects, command, key, node)?;
            give(&mut effects, command, key, value)?;
        }
        Visit::Split {
            node,
            left,
            right,
            held,
        } => {
            if key.level() < MAX_DEPTH {
                put(&mut effects, command, key, node)?;
                visit(&mut effects, command, key.child(false), left)?;
                visit(&mut effects, command, key.child(true), right)?;
                combine(&mut effects, command, key, held)?;
            } else {
                give(&mut effects, command, key, Value::Bad)?;
            }
        }
    }
    Ok(effects)
}

/// The effects of an up unit.
pub fn combination_effects(
    alloc: Global,
    command: u32,
    key: Key,
    combination: Combination,
) -> Result<HaarEffects, OutOfMemory>
    ensures { IfOk result (λ effects. effects ≡ combination_effects command key combination) }
{
    let mut effects = Effects::with_capacity(alloc, 4)?;
    match combination {
        Combination::Give { node, value } => {
            put(&mut effects, command, key, node)?;
            give(&mut effects, command, key, value)?;
        }
        Combination::Merge { sum } => {
            if key.level() < MAX_DEPTH {
                put(&mut effects, command, key, Some(Node::Leaf(sum)))?;
                clear(&mut effects, command, key.child(false))?;
                clear(&mut effects, command, key.child(true))?;
                give(&mut effects, command, key, Value::Sum(sum.get()))?;
            } else {
                give(&mut effects, command, key, Value::Bad)?;
            }
        }
    }
    Ok(effects)
}

/// A list of one effect. Inlined, since the effect, of some hundred bytes, would else be copied for the call.
#[inline(always)]
pub fn one_effect(
    alloc: Global,
    effect: Effect<Unit, Value, Node>,
) -> Result<HaarEffects, OutOfMemory>
    ensures { IfOk result (λ e. e ≡ effect ∷ []) }
{
    let mut effects = Effects::with_capacity(alloc, 1)?;
    effects.push(effect)?;
    Ok(effects)
}
