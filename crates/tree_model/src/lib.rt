//! The model of the job language: functions on cells, shapes, trees, commands, and the texts that they mean.
//!
//! The definitions are in `specs/`; this crate's functions are laws about them, each a contract with an empty body.
#![tactic(auto)]

mod coarsening;
mod coarsening_examples;
mod examples;
mod laws;
mod operations;
mod receipt_examples;
mod stored;
mod totals;

pub use coarsening::{
    boxes_are_constant_by_halves, coarsened_leaves_are_constant, coarsened_trees_are_least,
    coarsened_trees_are_trees, keys_are_counted_by_leaves,
};
pub use laws::{
    leaves_are_constant, leaves_follow, projections_are_trees, rows_follow,
    values_stay_within_limits,
};
pub use operations::{
    overflows_show_on_leaves, products_are_trees, products_on_leaves, refined_trees_are_trees,
    sums_are_linear, trees_are_constant_below_leaves, weighted_sums_are_trees,
};
pub use stored::{
    kept_numbers_are_in_order, products_are_of_values, projections_have_values,
    values_show_on_leaves, whole_boxes_have_one_value,
};
pub use totals::{cuts_are_counted_by_leaves, erased_keys_are_the_rest, intersections_are_shapes};
