//! The state of a rank in a fence, and what its turns answer.
ghost use Rattle.std.specs.Prelude.{◌≡◌, suc, ◌^◌, ◌<◌};
ghost use Rattle.app_core.specs.Commands.{IsRankCount};
ghost use Rattle.fence_tree.specs.Turns.{new_state, state_after, answer_of};

use crate::cells::FenceCells;
use crate::items::Verdict;
use crate::rows::{KnownRows, Sums};
use event_lists::Receipt;
use std::marker::Model;
use world_carriers::WordsNaming;

/// How far a rank is in the pass that it works on.
#[derive(Clone, Copy, Debug, PartialEq, Eq)]
pub enum Stage {
    /// Its own counts are to be read.
    Reading,

    /// The report of its first child is awaited.
    FirstChild,

    /// The report of its second child is awaited.
    SecondChild,

    /// It reported to its parent, whose announcement is awaited.
    Reported,
}

/// Why a turn ended without a receipt.
#[derive(Clone, Copy, Debug, PartialEq, Eq)]
pub enum Cause {
    /// The cell of this child, or of the parent, was empty.
    EmptyCell(u32),

    /// More tasks were submitted than ran.
    Open {
        ran: u64,
        submitted: u64,
    },

    /// The first pass is complete at all ranks, with these sums; the second is due.
    FirstPass(Sums),

    /// This pass doesn't agree with the one before: the sums of both. A new one is due.
    Moved {
        pass: u64,
        first: Sums,
        second: Sums,
    },
}

/// What a turn answers.
#[derive(Clone, Copy, Debug)]
pub enum FenceTurn {
    /// The fence goes on.
    Waiting(Cause),

    /// The fence has this receipt.
    Done(Receipt),

    /// The stop word is set.
    Stopped,
}

/// A rank in a fence: which pass it answered last, and how far the next one is.
#[derive(Debug, Drop)]
pub struct FenceState {
    pub(crate) rank: u32,
    pub(crate) ranks: u32,
    pub(crate) fence: u32,
    pub(crate) answered: u64,
    pub(crate) stage: Stage,
    pub(crate) rows: KnownRows,
    pub(crate) last: Sums,
}

impl Model for FenceState {
    ghost use Rattle.std.specs.Prelude.{◌<◌};
    ghost use Rattle.app_core.specs.Commands.{IsRankCount};
    ghost use Rattle.fence_tree.specs.Turns.{StateView};

    ghost Value = { StateView };

    ghost view = { λ s. record { rank = s.rank; ranks = s.ranks; fence = s.fence; answered = s.answered; stage = s.stage; rows = s.rows; last = s.last } };

    ghost invariant = { λ s. (s.rank < s.ranks) × IsRankCount s.ranks };
}

impl FenceState {
    /// The state of this rank as it enters a fence.
    pub fn new<A, J: WordsNaming<A>>(
        _cells: &FenceCells<A, J>,
        rank: u32,
        ranks: u32,
        fence: u32,
    ) -> FenceState
        requires cells { _cells.now.ranks ≡ ranks }
        requires rank { (rank < ranks) × IsRankCount ranks }
        ensures { result ≡ new_state rank ranks fence }
    {
        FenceState {
            rank,
            ranks,
            fence,
            answered: 0,
            stage: Stage::Reading,
            rows: KnownRows::none(),
            last: Sums {
                sent: 0,
                handled: 0,
            },
        }
    }

    /// The last pass that it answered, 0 before the first.
    pub fn answered(&self) -> u64
        ensures { result ≡ self.now.answered }
    {
        self.answered
    }

    // The state after this verdict, and what the turn answers.
    pub(crate) fn conclude(&mut self, verdict: Verdict) -> FenceTurn
        requires { self.old.answered < 2 ^ 48 }
        ensures state { self.new ≡ state_after verdict self.old }
        ensures answer { result ≡ answer_of verdict (suc self.old.answered) }
    {
        let (cause, last) = match verdict {
            Verdict::Done(receipt) => return FenceTurn::Done(receipt),
            Verdict::FirstPass(sums) => (Cause::FirstPass(sums), sums),
            Verdict::Moved { first, second } => {
                let pass = self.answered + 1;
                (
                    Cause::Moved {
                        pass,
                        first,
                        second,
                    },
                    second,
                )
            }
        };
        self.answered += 1;
        self.stage = Stage::Reading;
        self.rows = KnownRows::none();
        self.last = last;
        FenceTurn::Waiting(cause)
    }
}
