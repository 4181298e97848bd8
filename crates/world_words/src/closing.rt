//! The end of a run: all lanes are folded, into the track of the run and its book.
ghost use Rattle.std.specs.Prelude.{◌≡◌, ◌+◌, ◌*◌, ◌<◌, ◌≤◌, true, false, [], ◌∷◌, ◌++◌, length, reverse, All, Contains};
ghost use Rattle.event_books.specs.Books.{IsLawful, BookFollows, events_of};
ghost use Rattle.world_words.specs.Lanes.{LaneView, Lawful};
ghost use Rattle.world_words.specs.Closing.{all_of, own_parts, kept_parts, IsFree, AreAllLanes};

use crate::lane::{Lane, Root};
use crate::lanes::{Lanes, RankLanes};
use crate::words::Words;
use app_core::Facts;
use atomic_table::Seat;
use event_books::{Book, LanePart, parts_of_a_legal_list_are_a_book};
use std::marker::{Model, PhantomData};
use world_rule::view::View;

/// The whole list of the events of a run, as contracts see it: the book of all lanes, whether or not traces were kept.
/// Only `Words::close` makes one.
#[derive(Drop)]
pub struct Track<A> {
    seat: Seat<(), View>,
    ranks: u32,
    workers: u32,
    app: PhantomData<A>,
}

impl<A> Model for Track<A> {
    ghost use Rattle.event_books.specs.Books.{BookData, IsLawful, book_of};

    ghost Value = { BookData };

    ghost view = { λ t. book_of t.ranks t.workers t.seat.me.0.seen };

    ghost invariant = { λ t. IsLawful (book_of t.ranks t.workers t.seat.me.0.seen) };
}

impl<A> Track<A> {
    /// The book is lawful.
    pub fn is_lawful(&self)
        ensures { IsLawful self.now }
    {
        let _ = &self.seat;
    }
}

impl<A: Facts> Words<A> {
    // After one more look, what the root knows is a run, and its lanes have their parts in it.
    fn settle(&self, root: &mut Root)
        requires table { root.old.table ≡ self.now.table }
        ensures root { root.new ≡ record root.old { seen = root.new.seen } }
        ensures lawful { Lawful self.now (A.may_do self.now.app) root.new.parts root.new.seen }
    {
        self.look(&mut root.seat);
    }

    // Folds a lane, and adds what it kept to the book.
    fn fold_kept(&self, root: &mut Root, lane: Lane)
        requires table { root.old.table ≡ self.now.table }
        requires free { IsFree self.now lane }
        requires room { 0 < root.old.room }
        ensures table { root.new.table ≡ root.old.table }
        ensures parts { root.new.parts ≡ root.old.parts ++ own_parts (lane ∷ []) }
        ensures book { root.new.book ≡ root.old.book ++ kept_parts (lane ∷ []) }
        ensures room { root.old.room ≤ root.new.room + 1 }
    {
        let name = lane.name;
        match self.fold(root, lane) {
            Some(trace) if !trace.is_empty() => root
                .parts
                .push_reserved(LanePart::new(name, trace)),
            _ => {}
        }
    }

    // Folds the lanes of a rank.
    fn fold_rank(&self, root: &mut Root, lanes: RankLanes)
        requires table { root.old.table ≡ self.now.table }
        requires free { All (IsFree self.now) lanes }
        requires room { length lanes ≤ root.old.room }
        ensures table { root.new.table ≡ root.old.table }
        ensures parts { root.new.parts ≡ root.old.parts ++ own_parts lanes }
        ensures book { root.new.book ≡ root.old.book ++ kept_parts lanes }
        ensures room { root.old.room ≤ root.new.room + length lanes }
    {
        for lane in lanes.lanes {
            self.fold_kept(root, lane);
        }
    }

    // Folds the lanes of all ranks.
    fn fold_ranks(&self, root: &mut Root, ranks: Vec<RankLanes>)
        requires table { root.old.table ≡ self.now.table }
        requires free { All (IsFree self.now) (all_of ranks.items) }
        requires room { length (all_of ranks.items) ≤ root.old.room }
        ensures table { root.new.table ≡ root.old.table }
        ensures parts { root.new.parts ≡ root.old.parts ++ own_parts (all_of ranks.items) }
        ensures book { root.new.book ≡ root.old.book ++ kept_parts (all_of ranks.items) }
        ensures room { root.old.room ≤ root.new.room + length (all_of ranks.items) }
    {
        for lanes in ranks {
            self.fold_rank(root, lanes);
        }
    }

    /// Folds all lanes: the track of the run, and the book of what the lanes kept.
    ///
    /// The root is the one that the lanes were made with.
    pub fn close(self, lanes: Lanes) -> (Track<A>, Book)
        requires root { (lanes.root.table ≡ self.table) × (lanes.root.book ≡ []) × (21 * self.ranks ≤ lanes.root.room) }
        requires lanes { AreAllLanes self lanes.hands.items lanes.bins.items }
        ensures lawful { IsLawful result.0 }
        ensures follows { BookFollows self.program (A.may_do self.app) result.0 }
        ensures ranks { (result.0.ranks ≡ self.ranks) × (result.0.workers ≡ self.workers) }
        ensures parts { (v : LaneView) → Contains (all_of lanes.hands.items ++ all_of lanes.bins.items) v → events_of v.name result.0.parts ≡ reverse v.mine }
        ensures book { self.trace ≡ true → result.1 ≡ result.0 }
        ensures no_book { self.trace ≡ false → result.1 ≡ record result.0 { parts = [] } }
    {
        parts_of_a_legal_list_are_a_book();
        let Lanes {
            hands,
            bins,
            mut root,
        } = lanes;
        self.fold_ranks(&mut root, hands);
        self.fold_ranks(&mut root, bins);
        self.settle(&mut root);
        let Root { seat, parts } = root;
        let book = Book::new(self.ranks, self.workers, parts);
        let track = Track {
            seat,
            ranks: self.ranks,
            workers: self.workers,
            app: PhantomData,
        };
        (track, book)
    }
}
