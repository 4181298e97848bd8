//! What is kept of a legal list of events, so that the next event is judged without a search.
//!
//! [`Indexes`] are eight tables, each with what one question of the rules asks for: what a lane is doing, what is known of
//! a message, a task or a future, how many labels a bringer still has to make the due of a spawn, the counts of a rank,
//! the rows of its passes, the receipts, and which entries are in a bin. `specs/Contents.antt` says what each table has of
//! the list, and [`Indexes::note`] that one more event leaves all of them true of the longer list.
#![tactic(auto)]

mod counts;
mod futures;
mod indexes;
mod items;
mod keys;
mod lacking;
mod lanes;
mod puts;
mod receipts;
mod spawns;
mod table;

pub use indexes::Indexes;
pub use keys::{CountName, EntryName, PassName};
pub use lacking::lacks_dues;
pub use table::{Key, Table};
