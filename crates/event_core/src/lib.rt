//! The core of events: the list of the events of a run, which stays legal.
//!
//! [`EventList`] takes one more event exactly where the longer list is legal, at the cost of the logarithm of the
//! list. What makes a list legal, and the laws of every legal list, up to "each receipt is quiet", are in
//! `event_lists`; what makes a list follow an application, with the trait [`ListLaws`], in `event_laws`; the decision of
//! one event in `event_rules`, and books in `event_books`. This crate re-exports their types and laws.
#![tactic(auto)]

mod list;

pub use event_books::{
    Book, LanePart, books_are_judged, orders_of_parts_are_judged, parts_of_a_legal_list_are_a_book,
    takings_and_numbers_of_a_lawful_book_are_apart,
};
pub use event_laws::ListLaws;
pub use event_lists::{
    Bringer, EffectName, Event, Future, Item, Kind, LaneName, Mark, Parcel, Reading, Receipt, Row,
    Rows, TaskName, beginnings_are_legal, counts_are_frozen, dues_are_given_up_to_the_receipt,
    events_are_counted_once, futures_have_their_names, nothing_changes_up_to_the_receipt,
    nothing_is_open_between_the_passes, receipts_are_quiet,
};
pub use list::EventList;
