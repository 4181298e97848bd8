//! What the units of each operation decide for. A new operation is one more case in each of the three functions here.
ghost use Rattle.std.specs.Prelude.{◌≡◌, ◌≤◌, true, IfOk};
ghost use Rattle.haar_base.specs.Operations.{is_within};
ghost use Rattle.haar_visits.specs.Visits.{root_sides, visit, combine};

use crate::adding::{self, Factors};
use crate::inner_products::{self, both_entries};
use crate::printing::{self, Printed};
use crate::projecting::{self, no_sides};
use crate::{coarsening, compressing, multiplying, reconstructing, refining};
use app_core::OutOfMemory;
use haar_base::decisions::{Combination, Visit, bad_combination, bad_visit, done};
use haar_base::readings::{entry, one};
use haar_base::{Held, Operation, Sides, Value};
use haar_node::Node;
use std::alloc::Global;
use tree_key::Key;

/// What the down unit of the root knows of the trees that an operation reads. None where the operation doesn't go over
/// the keys of trees.
pub fn root_sides(operation: Operation) -> Option<Sides>
    ensures { result ≡ root_sides operation }
{
    match operation {
        Operation::Project { .. } => Some(no_sides()),
        Operation::Refine { .. } => Some(one(entry())),
        Operation::Coarsen { .. } => Some(one(entry())),
        Operation::Compress { .. } => Some(one(entry())),
        Operation::Reconstruct { .. } => Some(one(entry())),
        Operation::Add { .. } => Some(both_entries()),
        Operation::Mul { .. } => Some(both_entries()),
        Operation::Inner { .. } => Some(both_entries()),
        Operation::Print { .. } => Some(one(entry())),
        Operation::Size { .. } => None,
        Operation::Fence => None,
    }
}

/// What a down unit decides for, by the cells that it read of the first and of the second tree.
pub fn visit(
    alloc: Global,
    depth: u8,
    operation: Operation,
    key: Key,
    sides: &Sides,
    first: Option<Node>,
    second: Option<Node>,
) -> Result<Visit, OutOfMemory>
    requires deep { depth ≤ 16 }
    requires within { is_within depth operation ≡ true }
    requires level { key.level ≤ depth }
    ensures { IfOk result (λ v. v ≡ visit depth operation key sides.now first second) }
{
    match operation {
        Operation::Project {
            function,
            level,
            tolerance,
        } => Ok(projecting::visit(depth, function, level, tolerance, key)),
        Operation::Refine { level, source: _ } => {
            Ok(refining::visit(depth, level, key, sides.first, first))
        }
        Operation::Coarsen { .. } => Ok(coarsening::visit(depth, key, sides.first, first)),
        Operation::Compress { .. } => Ok(compressing::visit(depth, key, sides.first, first)),
        Operation::Reconstruct { .. } => Ok(reconstructing::visit(depth, key, sides.first, first)),
        Operation::Add {
            left_factor,
            left: _,
            right_factor,
            right: _,
        } => {
            let factors = Factors {
                left: left_factor,
                right: right_factor,
            };
            Ok(adding::visit(depth, factors, key, sides, first, second))
        }
        Operation::Mul { .. } => Ok(multiplying::visit(depth, key, sides, first, second)),
        Operation::Inner { .. } => Ok(inner_products::visit(depth, key, sides, first, second)),
        Operation::Print {
            source: _,
            form,
            name,
        } => {
            let printed = Printed { form, name };
            printing::visit(alloc, depth, printed, key, sides.first, first)
        }
        Operation::Size { .. } => Ok(bad_visit(false)),
        Operation::Fence => Ok(bad_visit(false)),
    }
}

/// What an up unit decides for, by what the two children gave.
pub fn combine(
    alloc: Global,
    depth: u8,
    operation: Operation,
    key: Key,
    held: &Held,
    left: Value,
    right: Value,
) -> Result<Combination, OutOfMemory>
    requires { depth ≤ 16 }
    ensures { IfOk result (λ c. c ≡ combine depth operation key held.now left right) }
{
    match operation {
        Operation::Project { .. } => Ok(done(&left, &right)),
        Operation::Refine { .. } => Ok(done(&left, &right)),
        Operation::Coarsen { .. } => Ok(coarsening::combine(&left, &right)),
        Operation::Compress { .. } => Ok(compressing::combine(key, &left, &right)),
        Operation::Reconstruct { .. } => Ok(done(&left, &right)),
        Operation::Add { .. } => Ok(done(&left, &right)),
        Operation::Mul { .. } => Ok(done(&left, &right)),
        Operation::Inner { .. } => Ok(inner_products::combine(depth, key, held, &left, &right)),
        Operation::Print {
            source: _,
            form,
            name,
        } => {
            let printed = Printed { form, name };
            printing::combine(alloc, printed, key, held, left, right)
        }
        Operation::Size { .. } => Ok(bad_combination(false)),
        Operation::Fence => Ok(bad_combination(false)),
    }
}
