//! Books: what each lane of a run wrote, and which books are lawful.
//!
//! A book is made of the traces that lanes kept. The parts of a legal list are those of a book.
#![tactic(auto)]

mod book;
mod examples;
mod laws;

pub use book::{Book, LanePart};
pub use examples::{books_are_judged, orders_of_parts_are_judged};
pub use laws::{parts_of_a_legal_list_are_a_book, takings_and_numbers_of_a_lawful_book_are_apart};
