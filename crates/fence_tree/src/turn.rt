//! The turns of a rank's main through a fence.
ghost use Rattle.std.specs.Prelude.{◌≡◌, ◌⊎◌, ℕ, suc, ◌+◌, ◌*◌, ◌^◌, ◌<◌, ◌≤◌, true, false, Some, None, Ok, Err, length, OnOk, OnErr, IfOk, IfErr};
ghost use Rattle.event_lists.specs.declared.receipt.Row.{Row as RowData};
ghost use Rattle.event_lists.specs.declared.receipt.Receipt.{Receipt as ReceiptData};
ghost use Rattle.event_lists.specs.Events.{main_of, part, Begins};
ghost use Rattle.event_lists.specs.Fences.{row_of};
ghost use Rattle.fence_tree.specs.declared.state.Cause.{Cause as CauseData};
ghost use Rattle.fence_tree.specs.declared.state.Cause.TheVariants as cause;
ghost use Rattle.fence_tree.specs.declared.state.Stage.TheVariants as stage;
ghost use Rattle.fence_tree.specs.declared.state.FenceTurn.TheVariants.{Waiting, Done, Stopped};
ghost use Rattle.fence_tree.specs.declared.rows.Sums.{Sums as SumsData};
ghost use Rattle.fence_tree.specs.Rows.{row_at, no_rows, HasSubtree};
ghost use Rattle.fence_tree.specs.Verdicts.{AreSums, IsRight};
ghost use Rattle.fence_tree.specs.Turns.{Knows, IsTurning, IsInside, IsReached, IsNeighbour, WereSeen, IsEmptyCell, IsOpen, IsOpenAttempt, Turned, IsQuietReceipt, HaveMoved};

use crate::cells::FenceCells;
use crate::items::{Announcement, Report, Verdict};
use crate::rows::{KnownRows, Sums};
use crate::state::{Cause, FenceState, FenceTurn, Stage};
use app_core::Facts;
use event_lists::{Receipt, Row, receipts_are_quiet};
use std::mem;
use std::sync::Wait;
use world_carriers::WordsNaming;
use world_words::{Lane, Words};

impl FenceState {
    /// One turn of the main of a rank in its fence. It makes at most one attempt, and takes no memory. It may wait for
    /// other threads.
    pub fn turn<A: Facts, J: WordsNaming<A>, R: Wait>(
        &mut self,
        rt: &R,
        words: &Words<A>,
        lane: &mut Lane,
        cells: &FenceCells<A, J>,
    ) -> FenceTurn
        requires named { J.words ≡ Some words.now }
        requires cells { cells.now.ranks ≡ self.old.ranks }
        requires turning { IsTurning words.now self.old lane.old }
        requires room { (8 ≤ lane.old.spare) × (length lane.old.mine < 2 ^ 48) }
        ensures done { (r : ReceiptData) → result ≡ Done r → IsQuietReceipt self.old.fence r lane.new.seen }
        ensures empty { (q : ℕ) → result ≡ Waiting (cause.EmptyCell q) → IsNeighbour self.old.ranks self.old.rank q }
        ensures open { (ran submitted : ℕ) → result ≡ Waiting (cause.Open ran submitted) → (ran < submitted) × WereSeen self.old.fence ran submitted lane.old lane.new }
        ensures first { (s : SumsData) → result ≡ Waiting (cause.FirstPass s) → (self.old.answered ≡ 0) × (self.new.answered ≡ 1) × AreSums words.now.ranks self.old.fence 1 s lane.new.seen }
        ensures moved { (p : ℕ) (a b : SumsData) → result ≡ Waiting (cause.Moved p a b) → (p ≡ suc self.old.answered) × (self.new.answered ≡ p) × HaveMoved words.now.ranks self.old.fence p a b lane.new.seen }
        ensures answered { ((s : SumsData) → result ≡ Waiting (cause.FirstPass s) → ⊥) → ((p : ℕ) (a b : SumsData) → result ≡ Waiting (cause.Moved p a b) → ⊥) → self.new.answered ≡ self.old.answered }
        ensures stopped { result ≡ Stopped → (lane.new.stop_looks ≡ suc lane.old.stop_looks) × (lane.new.saw_stop ≡ true) }
        ensures again { (c : CauseData) → result ≡ Waiting c → IsTurning words.now self.new lane.new }
        ensures inside { IsInside words.now self.old.rank self.old.fence lane.new }
        ensures turned { Turned self.old.fence lane.old lane.new }
        ensures few { lane.old.spare ≤ lane.new.spare + 5 }
        ensures length { length lane.new.mine + lane.new.spare ≡ length lane.old.mine + lane.old.spare }
        ensures state { (self.new.rank ≡ self.old.rank) × (self.new.ranks ≡ self.old.ranks) × (self.new.fence ≡ self.old.fence) }
    {
        receipts_are_quiet();
        if words.is_stopped(lane) {
            return FenceTurn::Stopped;
        }
        match self.reach(rt, words, lane, cells) {
            Ok(verdict) => {
                self.announce(rt, words, lane, cells, &verdict);
                self.conclude(verdict)
            }
            Err(cause) => FenceTurn::Waiting(cause),
        }
    }

    // The verdict on the next pass, once it can be known.
    fn reach<A: Facts, J: WordsNaming<A>, R: Wait>(
        &mut self,
        rt: &R,
        words: &Words<A>,
        lane: &mut Lane,
        cells: &FenceCells<A, J>,
    ) -> Result<Verdict, Cause>
        requires named { J.words ≡ Some words.now }
        requires cells { cells.now.ranks ≡ self.old.ranks }
        requires turning { IsTurning words.now self.old lane.old }
        requires room { (5 ≤ lane.old.spare) × (length lane.old.mine < 2 ^ 48) }
        ensures reached { IfOk result (λ v. IsReached words.now self.old.rank self.old.fence self.old.answered v lane.new) }
        ensures again { OnErr result (IsTurning words.now self.new lane.new) }
        ensures cause { IfErr result (λ c. IsEmptyCell self.old.ranks self.old.rank c ⊎ IsOpen self.old.fence lane.old lane.new c) }
        ensures state { self.new ≡ record self.old { stage = self.new.stage; rows = self.new.rows } }
        ensures turned { Turned self.old.fence lane.old lane.new }
        ensures few { lane.old.spare ≤ lane.new.spare + 5 }
    {
        match self.stage {
            Stage::Reading => {
                self.read(words, lane)?;
                self.gather_first(rt, words, lane, cells)
            }
            Stage::FirstChild => self.gather_first(rt, words, lane, cells),
            Stage::SecondChild => self.gather_second(rt, words, lane, cells),
            Stage::Reported => self.hear(rt, words, lane, cells),
        }
    }

    // Reads the counts of the rank, where it finds as many tasks submitted as run.
    fn read<A: Facts>(&mut self, words: &Words<A>, lane: &mut Lane) -> Result<(), Cause>
        requires turning { IsTurning words.now self.old lane.old }
        requires stage { self.old.stage ≡ stage.Reading }
        requires room { (4 ≤ lane.old.spare) × (length lane.old.mine < 2 ^ 48) }
        ensures turning { IsTurning words.now self.new lane.new }
        ensures stage { OnOk result (self.new.stage ≡ stage.FirstChild) }
        ensures cause { IfErr result (λ c. IsOpen self.old.fence lane.old lane.new c) }
        ensures state { self.new ≡ record self.old { stage = self.new.stage; rows = self.new.rows } }
        ensures turned { Turned self.old.fence lane.old lane.new }
        ensures few { lane.old.spare ≤ lane.new.spare + 4 }
    {
        let ran = words.look_ran(lane);
        let submitted = words.look_submitted(lane);
        if ran < submitted {
            return Err(Cause::Open { ran, submitted });
        }
        let row = self.attempt(words, lane)?;
        self.rows.set(self.rank, row);
        self.stage = Stage::FirstChild;
        Ok(())
    }

    // One attempt of the next pass, which completes it at this rank where as many tasks were submitted as ran.
    fn attempt<A: Facts>(&self, words: &Words<A>, lane: &mut Lane) -> Result<Row, Cause>
        requires knows { Knows words.now self.now self.now.answered lane.old }
        requires room { (4 ≤ lane.old.spare) × (length lane.old.mine < 2 ^ 48) }
        ensures row { IfOk result (λ row. row_of self.now.fence (suc self.now.answered) (part (main_of self.now.rank) lane.new.seen) ≡ Some row) }
        ensures knows { OnOk result (Knows words.now self.now (suc self.now.answered) lane.new) }
        ensures again { OnErr result (Knows words.now self.now self.now.answered lane.new) }
        ensures cause { IfErr result (λ c. IsOpenAttempt self.now.fence lane.old lane.new c) }
        ensures turned { Turned self.now.fence lane.old lane.new }
        ensures few { lane.old.spare ≤ lane.new.spare + 4 }
    {
        let fence = self.fence;
        let pass = self.answered + 1;
        let handled = words.read_handled(lane, fence, pass);
        let ran = words.read_ran(lane, fence, pass);
        let submitted = words.read_submitted(lane, fence, pass);
        if ran < submitted {
            return Err(Cause::Open { ran, submitted });
        }
        let sent = words.read_sent(lane, fence, pass);
        Ok(Row {
            sent,
            handled,
            tasks: ran,
        })
    }

    // Takes in the report of a child, where the rank has this child.
    fn gather<A: Facts, J: WordsNaming<A>, R: Wait>(
        &mut self,
        rt: &R,
        words: &Words<A>,
        lane: &mut Lane,
        cells: &FenceCells<A, J>,
        child: u32,
    ) -> Result<(), Cause>
        requires named { J.words ≡ Some words.now }
        requires cells { cells.now.ranks ≡ self.old.ranks }
        requires knows { Knows words.now self.old (suc self.old.answered) lane.old }
        requires child { (child ≡ 2 * self.old.rank + 1) ⊎ (child ≡ 2 * self.old.rank + 2) }
        requires few { self.old.answered < 2 ^ 48 }
        ensures knows { Knows words.now self.new (suc self.old.answered) lane.new }
        ensures subtree { OnOk result (HasSubtree words.now.ranks child self.new.rows) }
        ensures kept { (q : ℕ) (row : RowData) → row_at self.old.rows q ≡ Some row → (other : RowData) × (row_at self.new.rows q ≡ Some other) }
        ensures cause { IfErr result (λ c. (c ≡ cause.EmptyCell child) × (child < self.old.ranks)) }
        ensures state { self.new ≡ record self.old { rows = self.new.rows } }
        ensures refused { OnErr result (self.new ≡ self.old) }
        ensures lane { lane.new ≡ record lane.old { seen = lane.new.seen } }
        ensures knew { Begins lane.old.seen lane.new.seen }
    {
        if child >= self.ranks {
            return Ok(());
        }
        let Some(report) = cells.take_report(rt, child, self.fence, self.answered + 1) else {
            return Err(Cause::EmptyCell(child));
        };
        let (rows, told) = report.into_parts();
        words.learn(lane, told);
        self.rows.add(&rows);
        Ok(())
    }

    // Goes on with the first child's report.
    fn gather_first<A: Facts, J: WordsNaming<A>, R: Wait>(
        &mut self,
        rt: &R,
        words: &Words<A>,
        lane: &mut Lane,
        cells: &FenceCells<A, J>,
    ) -> Result<Verdict, Cause>
        requires named { J.words ≡ Some words.now }
        requires cells { cells.now.ranks ≡ self.old.ranks }
        requires turning { IsTurning words.now self.old lane.old }
        requires stage { self.old.stage ≡ stage.FirstChild }
        requires room { (1 ≤ lane.old.spare) × (self.old.answered < 2 ^ 48) }
        ensures reached { IfOk result (λ v. IsReached words.now self.old.rank self.old.fence self.old.answered v lane.new) }
        ensures again { OnErr result (IsTurning words.now self.new lane.new) }
        ensures cause { IfErr result (λ c. IsEmptyCell self.old.ranks self.old.rank c) }
        ensures state { self.new ≡ record self.old { stage = self.new.stage; rows = self.new.rows } }
        ensures turned { Turned self.old.fence lane.old lane.new }
        ensures few { lane.old.spare ≤ lane.new.spare + 1 }
    {
        let child = 2 * self.rank + 1;
        self.gather(rt, words, lane, cells, child)?;
        self.stage = Stage::SecondChild;
        self.gather_second(rt, words, lane, cells)
    }

    // Goes on with the second child's report. Then rank 0 decides, and another rank reports to its parent.
    fn gather_second<A: Facts, J: WordsNaming<A>, R: Wait>(
        &mut self,
        rt: &R,
        words: &Words<A>,
        lane: &mut Lane,
        cells: &FenceCells<A, J>,
    ) -> Result<Verdict, Cause>
        requires named { J.words ≡ Some words.now }
        requires cells { cells.now.ranks ≡ self.old.ranks }
        requires turning { IsTurning words.now self.old lane.old }
        requires stage { self.old.stage ≡ stage.SecondChild }
        requires room { (1 ≤ lane.old.spare) × (self.old.answered < 2 ^ 48) }
        ensures reached { IfOk result (λ v. IsReached words.now self.old.rank self.old.fence self.old.answered v lane.new) }
        ensures again { OnErr result (IsTurning words.now self.new lane.new) }
        ensures cause { IfErr result (λ c. IsEmptyCell self.old.ranks self.old.rank c) }
        ensures state { self.new ≡ record self.old { stage = self.new.stage; rows = self.new.rows } }
        ensures turned { Turned self.old.fence lane.old lane.new }
        ensures few { lane.old.spare ≤ lane.new.spare + 1 }
    {
        let child = 2 * self.rank + 2;
        self.gather(rt, words, lane, cells, child)?;
        if self.rank == 0 {
            return Ok(self.decide(words, lane));
        }
        self.report(rt, words, lane, cells);
        self.hear(rt, words, lane, cells)
    }

    // Reports the rows of the rank's subtree to its parent.
    fn report<A: Facts, J: WordsNaming<A>, R: Wait>(
        &mut self,
        rt: &R,
        words: &Words<A>,
        lane: &mut Lane,
        cells: &FenceCells<A, J>,
    )
        requires named { J.words ≡ Some words.now }
        requires cells { cells.now.ranks ≡ self.old.ranks }
        requires knows { Knows words.now self.old (suc self.old.answered) lane.old }
        requires rank { 0 < self.old.rank }
        requires subtree { HasSubtree words.now.ranks self.old.rank self.old.rows }
        requires few { self.old.answered < 2 ^ 48 }
        ensures lane { lane.new ≡ lane.old }
        ensures state { self.new ≡ record self.old { stage = stage.Reported; rows = no_rows } }
    {
        let rows = mem::replace(&mut self.rows, KnownRows::none());
        let told = words.tell(lane);
        let report = Report::new(self.rank, self.fence, self.answered + 1, rows, told);
        cells.put_report(rt, self.rank, report);
        self.stage = Stage::Reported;
    }

    // The parent's announcement.
    fn hear<A: Facts, J: WordsNaming<A>, R: Wait>(
        &self,
        rt: &R,
        words: &Words<A>,
        lane: &mut Lane,
        cells: &FenceCells<A, J>,
    ) -> Result<Verdict, Cause>
        requires named { J.words ≡ Some words.now }
        requires cells { cells.now.ranks ≡ self.now.ranks }
        requires knows { Knows words.now self.now (suc self.now.answered) lane.old }
        requires rank { 0 < self.now.rank }
        requires few { self.now.answered < 2 ^ 48 }
        ensures reached { IfOk result (λ v. IsReached words.now self.now.rank self.now.fence self.now.answered v lane.new) }
        ensures again { OnErr result (lane.new ≡ lane.old) }
        ensures cause { IfErr result (λ c. IsEmptyCell self.now.ranks self.now.rank c) }
        ensures lane { lane.new ≡ record lane.old { seen = lane.new.seen } }
        ensures knew { Begins lane.old.seen lane.new.seen }
    {
        let parent = (self.rank - 1) / 2;
        let pass = self.answered + 1;
        let Some(announcement) = cells.take_announcement(rt, self.rank, parent, self.fence, pass)
        else {
            return Err(Cause::EmptyCell(parent));
        };
        let (verdict, told) = announcement.into_parts();
        words.learn(lane, told);
        Ok(verdict)
    }

    // Rank 0's verdict, from the rows of all ranks.
    fn decide<A: Facts>(&self, words: &Words<A>, lane: &mut Lane) -> Verdict
        requires knows { Knows words.now self.now (suc self.now.answered) lane.old }
        requires rank { self.now.rank ≡ 0 }
        requires rows { HasSubtree words.now.ranks 0 self.now.rows }
        requires room { (1 ≤ lane.old.spare) × (self.now.answered < 2 ^ 48) }
        ensures reached { IsReached words.now self.now.rank self.now.fence self.now.answered result lane.new }
        ensures turned { Turned self.now.fence lane.old lane.new }
        ensures few { lane.old.spare ≤ lane.new.spare + 1 }
    {
        let sums = self.rows.sums(self.ranks);
        if self.answered == 0 {
            return Verdict::FirstPass(sums);
        }
        if self.last.agree(&sums) {
            let receipt = Receipt {
                fence: self.fence,
                pass: self.answered + 1,
                rows: self.rows.all(self.ranks),
            };
            words.mark_receipt(lane, &receipt);
            return Verdict::Done(receipt);
        }
        Verdict::Moved {
            first: self.last,
            second: sums,
        }
    }

    // Announces the verdict to both children.
    fn announce<A: Facts, J: WordsNaming<A>, R: Wait>(
        &self,
        rt: &R,
        words: &Words<A>,
        lane: &mut Lane,
        cells: &FenceCells<A, J>,
        verdict: &Verdict,
    )
        requires named { J.words ≡ Some words.now }
        requires cells { cells.now.ranks ≡ self.now.ranks }
        requires table { (lane.old.table ≡ words.now.table) × (words.now.ranks ≡ self.now.ranks) }
        requires right { IsRight words.now.ranks self.now.fence (suc self.now.answered) verdict.now lane.old.seen }
        requires few { self.now.answered < 2 ^ 48 }
        ensures { lane.new ≡ lane.old }
    {
        let first = 2 * self.rank + 1;
        self.announce_to(rt, words, lane, cells, verdict, first);
        self.announce_to(rt, words, lane, cells, verdict, first + 1);
    }

    // Announces the verdict to a child, where the rank has this child.
    fn announce_to<A: Facts, J: WordsNaming<A>, R: Wait>(
        &self,
        rt: &R,
        words: &Words<A>,
        lane: &mut Lane,
        cells: &FenceCells<A, J>,
        verdict: &Verdict,
        child: u32,
    )
        requires named { J.words ≡ Some words.now }
        requires cells { cells.now.ranks ≡ self.now.ranks }
        requires table { (lane.old.table ≡ words.now.table) × (words.now.ranks ≡ self.now.ranks) }
        requires right { IsRight words.now.ranks self.now.fence (suc self.now.answered) verdict.now lane.old.seen }
        requires few { self.now.answered < 2 ^ 48 }
        requires child { 0 < child }
        ensures { lane.new ≡ lane.old }
    {
        if child < self.ranks {
            let told = words.tell(lane);
            let pass = self.answered + 1;
            let announcement = Announcement::new(self.rank, self.fence, pass, *verdict, told);
            cells.put_announcement(rt, child, announcement);
        }
    }
}
