//! The versions that are dropped at each fence of a plan.
ghost use Rattle.std.specs.Prelude.{◌≡◌, ℕ, ◌+◌, ◌<◌, ◌≤◌, ◌++◌, ◌∷◌, [], get_or, length, max, replicate, set, IfOk, OnOk, if◌then◌else◌, ◌==◌};
ghost use Rattle.job_data.specs.Drops.{AreNumbered, dropped_at};
ghost use Rattle.job_data.specs.Uses.{items_in, last_use, use_after};

use crate::sources::Sources;
use crate::step::Step;
use std::alloc::{AllocError, Global};
use std::marker::Model;

// Raises the number at a place to this one, if there is such a place.
fn raise(numbers: &mut Vec<u32>, at: u32, number: u32)
    ensures length { length numbers.new.items ≡ length numbers.old.items }
    ensures numbers { (place : ℕ) → place < length numbers.old.items → get_or numbers.new.items place 0
        ≡ (if at == place then max (get_or numbers.old.items place 0) number else get_or numbers.old.items place 0) }
{
    let at = at as usize;
    if at < numbers.len() && numbers[at] < number {
        numbers[at] = number;
    }
}

// For each version the fence of the last command that uses it, with one command more.
fn note_uses(last: &mut Vec<u32>, step: &Step)
    ensures length { length last.new.items ≡ length last.old.items }
    ensures uses { (version : ℕ) → version < length last.old.items → get_or last.new.items version 0
        ≡ use_after version (get_or last.old.items version 0) step.now }
{
    if let Some(version) = step.writes {
        raise(last, version, step.fence);
    }
    match step.reads {
        Sources::Nothing => {}
        Sources::One(version) => raise(last, version, step.fence),
        Sources::Two(left, right) => {
            raise(last, left, step.fence);
            raise(last, right, step.fence);
        }
    }
}

// For each version the fence of the last command that uses it.
fn last_uses(alloc: Global, steps: &[Step]) -> Result<Vec<u32>, AllocError>
    ensures length { IfOk result (λ last. length last.items ≡ length steps.now + 1) }
    ensures uses { IfOk result (λ last. (version : ℕ) → version ≤ length steps.now →
        get_or last.items version 0 ≡ last_use steps.now version) }
{
    let mut last = vec![in alloc; 0; steps.len() + 1]?;
    for step in steps {
        note_uses(&mut last, step);
    }
    Ok(last)
}

// So many empty lists.
fn empty_lists(alloc: Global, count: usize) -> Result<Vec<Vec<u32>>, AllocError>
    ensures { IfOk result (λ lists. items_in lists.items ≡ replicate count []) }
{
    let mut lists = Vec::new(alloc);
    for _ in 0..count {
        lists.push(Vec::new(alloc))?;
    }
    Ok(lists)
}

// Adds a number to one of the lists.
fn add_to(lists: &mut Vec<Vec<u32>>, at: usize, number: u32) -> Result<(), AllocError>
    requires { at < length lists.old.items }
    ensures { OnOk result (items_in lists.new.items
        ≡ set (items_in lists.old.items) at (get_or (items_in lists.old.items) at [] ++ number ∷ [])) }
{
    lists[at].push(number)?;
    Ok(())
}

/// For each fence the versions that are dropped there: those that were written before it, and that no command after it
/// reads, each at the first such fence.
#[derive(Drop)]
pub struct Drops {
    lists: Vec<Vec<u32>>,
}

impl Model for Drops {
    ghost use Rattle.std.specs.Prelude.{List, ℕ};
    ghost use Rattle.job_data.specs.Uses.{items_in};

    ghost Value = { List (List ℕ) };

    ghost view = { λ d. items_in d.lists.items };
}

impl Drops {
    /// The versions that are dropped at the fences of these steps, which are numbered from 1.
    pub fn of_steps(alloc: Global, steps: &[Step]) -> Result<Drops, AllocError>
        requires { AreNumbered 1 steps.now }
        ensures { IfOk result (λ drops. (fence : ℕ) → get_or drops fence [] ≡ dropped_at steps.now fence) }
    {
        let last = last_uses(alloc, steps)?;
        let mut lists = empty_lists(alloc, steps.len() + 1)?;
        for at in 0..steps.len() {
            let step = &steps[at];
            if let Some(version) = step.writes {
                let fence = last[version as usize];
                add_to(&mut lists, fence as usize, version)?;
            }
        }
        Ok(Drops { lists })
    }

    /// The versions that are dropped at the fence of a number, in order. None at a number that no fence has.
    pub fn at(&self, fence: u32) -> &[u32]
        ensures { result.now ≡ get_or self.now fence [] }
    {
        match self.lists.get(fence as usize) {
            Some(versions) => versions,
            None => &[],
        }
    }
}
