//! Which words the values behind locks are of.
ghost use Rattle.std.specs.Prelude.{Option, None};
ghost use Rattle.world_words.specs.Lanes.{WordsView};

use app_core::Naming;
use std::marker::Brand;

/// Names an application and its words, for the types of values behind locks.
///
/// As [`Naming`] has the application, `J.words` is `Some` of what contracts see of the words, with their table. The public
/// call that has both calls one function at [`Brand`] and picks `J.app` and `J.words` there; that function, and all
/// below it, have the conditions that they are this application and these words.
pub trait WordsNaming<A>: Naming<A> {
    /// The words, or none where no call picked any.
    ghost words: { Option (WordsView A) };
}

impl<A> WordsNaming<A> for Brand {
    ghost words = { None };
}
