//! What the cells have: rows on their way up, and verdicts on their way down.
ghost use Rattle.std.specs.Prelude.{◌≡◌, ◌↔◌, true, IfSome};
ghost use Rattle.fence_tree.specs.Verdicts.{IsReport, IsAnnouncement};

use crate::rows::{KnownRows, Sums};
use event_lists::Receipt;
use std::marker::{Model, PhantomData};
use std::snapshot::Snapshot;
use world_carriers::WordsNaming;
use world_words::Told;

/// What rank 0 found in a pass.
#[derive(Clone, Copy, Debug)]
pub enum Verdict {
    /// It was the first pass, with these sums.
    FirstPass(Sums),

    /// The pass doesn't agree with the one before: the sums of both.
    Moved { first: Sums, second: Sums },

    /// The pass agrees with the one before, and the fence has this receipt.
    Done(Receipt),
}

/// What a rank sends up: the rows of the ranks of its subtree in a pass of a fence, and what its lane knew.
///
/// Whoever put it: what is told has the row of each rank of the subtree, and is of the words that `J` names.
#[derive(Drop)]
pub struct Report<A, J: WordsNaming<A>> {
    rank: u32,
    fence: u32,
    pass: u64,
    rows: KnownRows,
    told: Told,

    // A snapshot crosses threads, whatever the application is.
    of: PhantomData<Snapshot<A>>,
    by: PhantomData<J>,
}

impl<A, J: WordsNaming<A>> Model for Report<A, J> {
    ghost use Rattle.std.specs.Prelude.{IfSome};
    ghost use Rattle.fence_tree.specs.Verdicts.{ReportView, IsReport};

    ghost Value = { ReportView };

    ghost view = { λ r. record { rank = r.rank; fence = r.fence; pass = r.pass; rows = r.rows; told = r.told } };

    ghost invariant = { λ r. IfSome J.words (λ words. IsReport words (record { rank = r.rank; fence = r.fence; pass = r.pass; rows = r.rows; told = r.told })) };
}

impl<A, J: WordsNaming<A>> Report<A, J> {
    /// The report of this rank, of a pass of a fence.
    pub fn new(rank: u32, fence: u32, pass: u64, rows: KnownRows, told: Told) -> Report<A, J>
        requires { IfSome J.words (λ words. IsReport words (record { rank = rank; fence = fence; pass = pass; rows = rows; told = told })) }
        ensures { result ≡ record { rank = rank; fence = fence; pass = pass; rows = rows; told = told } }
    {
        Report {
            rank,
            fence,
            pass,
            rows,
            told,
            of: PhantomData,
            by: PhantomData,
        }
    }

    /// Whether this rank put it, for this pass of this fence.
    pub fn is_of(&self, rank: u32, fence: u32, pass: u64) -> bool
        ensures { (result ≡ true) ↔ ((self.now.rank ≡ rank) × (self.now.fence ≡ fence) × (self.now.pass ≡ pass)) }
    {
        self.rank == rank && self.fence == fence && self.pass == pass
    }

    /// The rows, and what was told with them.
    pub fn into_parts(self) -> (KnownRows, Told)
        ensures parts { (result.0 ≡ self.rows) × (result.1 ≡ self.told) }
        ensures right { IfSome J.words (λ words. IsReport words self) }
    {
        (self.rows, self.told)
    }
}

/// What a rank sends down: the verdict on a pass of a fence, and what its lane knew.
///
/// Whoever put it: what is told shows that the verdict is right, and is of the words that `J` names.
#[derive(Drop)]
pub struct Announcement<A, J: WordsNaming<A>> {
    rank: u32,
    fence: u32,
    pass: u64,
    verdict: Verdict,
    told: Told,
    of: PhantomData<Snapshot<A>>,
    by: PhantomData<J>,
}

impl<A, J: WordsNaming<A>> Model for Announcement<A, J> {
    ghost use Rattle.std.specs.Prelude.{IfSome};
    ghost use Rattle.fence_tree.specs.Verdicts.{AnnouncementView, IsAnnouncement};

    ghost Value = { AnnouncementView };

    ghost view = { λ a. record { rank = a.rank; fence = a.fence; pass = a.pass; verdict = a.verdict; told = a.told } };

    ghost invariant = { λ a. IfSome J.words (λ words. IsAnnouncement words (record { rank = a.rank; fence = a.fence; pass = a.pass; verdict = a.verdict; told = a.told })) };
}

impl<A, J: WordsNaming<A>> Announcement<A, J> {
    /// The verdict on a pass of a fence, as this rank sends it on.
    pub fn new(rank: u32, fence: u32, pass: u64, verdict: Verdict, told: Told) -> Announcement<A, J>
        requires { IfSome J.words (λ words. IsAnnouncement words (record { rank = rank; fence = fence; pass = pass; verdict = verdict; told = told })) }
        ensures { result ≡ record { rank = rank; fence = fence; pass = pass; verdict = verdict; told = told } }
    {
        Announcement {
            rank,
            fence,
            pass,
            verdict,
            told,
            of: PhantomData,
            by: PhantomData,
        }
    }

    /// Whether this rank put it, for this pass of this fence.
    pub fn is_of(&self, rank: u32, fence: u32, pass: u64) -> bool
        ensures { (result ≡ true) ↔ ((self.now.rank ≡ rank) × (self.now.fence ≡ fence) × (self.now.pass ≡ pass)) }
    {
        self.rank == rank && self.fence == fence && self.pass == pass
    }

    /// The verdict, and what was told with it.
    pub fn into_parts(self) -> (Verdict, Told)
        ensures parts { (result.0 ≡ self.verdict) × (result.1 ≡ self.told) }
        ensures right { IfSome J.words (λ words. IsAnnouncement words self) }
    {
        (self.verdict, self.told)
    }
}
