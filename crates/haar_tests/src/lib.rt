//! Units of the tree application, driven on one thread, and their results beside those of the serial evaluator.
#![tactic(auto)]

#[cfg(test)]
mod both_bounds;
#[cfg(test)]
mod driver;
#[cfg(test)]
mod kinds;
#[cfg(test)]
mod orders;
#[cfg(test)]
mod tests;
#[cfg(test)]
mod wrong_inputs;
#[cfg(test)]
mod wrong_kinds;
