//! Tests of the events' crates, in one program: lists, tables and books, and the indexed list beside the searched one.
#![tactic(auto)]

#[cfg(test)]
mod alike;
#[cfg(test)]
mod books;
#[cfg(test)]
mod fences;
#[cfg(test)]
mod long_run;
#[cfg(test)]
mod memory;
#[cfg(test)]
mod offers;
#[cfg(test)]
mod rounds;
#[cfg(test)]
mod rows;
#[cfg(test)]
mod searched;
#[cfg(test)]
mod tables;
