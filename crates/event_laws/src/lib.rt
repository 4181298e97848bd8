//! What makes a list of events follow an application, and the laws of an application on such lists.
//!
//! The definitions are in `specs/`; lists of events have the newest first. [`ListLaws`] has what is said of an
//! application on every legal list that follows it. The functions of [`laws`] show most of its laws from facts on the
//! application's plain data, such as that the labels of its units form a tree, so that an application does no induction
//! on lists. Those of [`receipts`] show what its bins hold at a receipt, and what the receipt counts, from the units that
//! come up before the fence. The cut of an application into units with labels, and its laws, are this project's own.
#![tactic(auto)]

pub mod examples;
pub mod growth;
pub mod laws;
mod list_laws;
pub mod receipts;

pub use list_laws::ListLaws;
