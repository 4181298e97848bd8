//! Laws of lawful books: each clause is a law, and the body is empty.
ghost use Rattle.event_books.specs.Books.{TakingsAreApart, NumbersAreApart, PartsAreOfABook};

/// In a lawful book no message and no task is taken twice, and no two counted events of a rank carry the same number of
/// one kind.
pub fn takings_and_numbers_of_a_lawful_book_are_apart()
    ensures takings { TakingsAreApart }
    ensures numbers { NumbersAreApart }
{}

/// The parts of a legal list, with the lanes in order, are those of a book.
pub fn parts_of_a_legal_list_are_a_book()
    ensures { PartsAreOfABook }
{}
