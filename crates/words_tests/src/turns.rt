//! The turns of mains through a fence: they enter, read counts, tell their rows, make a receipt and leave. They may have
//! started units, and run tasks between.
ghost use Rattle.std.specs.Prelude.{◌≡◌, ℕ, ◌+◌, ◌<◌, ◌≤◌, true, false, None, Some, slice_get, suc, [], Contains, IfOk};
ghost use Rattle.event_lists.specs.declared.receipt.Row.{Row as RowData};
ghost use Rattle.event_lists.specs.Fences.{IsReady, has_receipt};
ghost use Rattle.event_lists.specs.Events.{Begins};
ghost use Rattle.event_lists.specs.declared.lane.LaneName.{LaneName as LaneNameData};
ghost use Rattle.event_lists.specs.Legal.{IsLane};
ghost use Rattle.world_rule.specs.Views.{empty_part};
ghost use Rattle.words_tests.specs.declared.turns.ThreeRows.{ThreeRows as ThreeRowsData};
ghost use Rattle.event_lists.specs.OwnEvents.{has_receipt_on_lane};
ghost use Rattle.event_laws.specs.Follows.{Wait, program_at, deeds};
ghost use Rattle.words_tests.specs.Turns.{IsOutside, IsInside, HasRow, HasRows, AreReady, AreOutside, WaitNext, HaveDone};

use app_core::Facts;
use event_lists::{LaneName, Receipt, Row, Rows};
use world_words::{Lane, ReserveError, Root, Words};

const ZERO: LaneName = LaneName {
    rank: 0,
    bin: false,
    number: 0,
};

const ONE: LaneName = LaneName {
    rank: 1,
    bin: false,
    number: 0,
};

const TWO: LaneName = LaneName {
    rank: 2,
    bin: false,
    number: 0,
};

/// A main enters its next fence, after those that it left.
pub fn enter<A: Facts>(words: &Words<A>, lane: &mut Lane, left: u32)
    requires few { left < 100 }
    requires outside { IsOutside words.now left lane.old }
    requires room { 0 < lane.old.spare }
    requires next { slice_get (program_at lane.old.name.rank words.now.program) (deeds lane.old.mine) ≡ Some Wait }
    ensures inside { IsInside words.now (left + 1) 1 lane.new }
    ensures open { has_receipt_on_lane (left + 1) lane.new.mine ≡ false }
    ensures done { deeds lane.new.mine ≡ deeds lane.old.mine }
    ensures name { lane.new.name ≡ lane.old.name }
    ensures knows { Begins lane.old.seen lane.new.seen }
    ensures room { lane.old.spare ≤ lane.new.spare + 1 }
{
    words.mark_enter(lane, left + 1);
}

/// A main reads the counts of its rank in a pass, which is then complete where it finds as many tasks submitted as run.
pub fn attempt<A: Facts>(words: &Words<A>, lane: &mut Lane, fence: u32, pass: u64) -> Option<Row>
    requires inside { IsInside words.now fence pass lane.old }
    requires ready { IsReady words.now.ranks fence pass lane.old.seen }
    requires room { 3 < lane.old.spare }
    ensures again { result ≡ None → IsInside words.now fence pass lane.new }
    ensures inside { (row : RowData) → result ≡ Some row → IsInside words.now fence (suc pass) lane.new }
    ensures row { (row : RowData) → result ≡ Some row → HasRow fence pass lane.new.name.rank row lane.new.seen }
    ensures open { has_receipt_on_lane fence lane.old.mine ≡ false → has_receipt_on_lane fence lane.new.mine ≡ false }
    ensures done { deeds lane.new.mine ≡ deeds lane.old.mine }
    ensures name { lane.new.name ≡ lane.old.name }
    ensures knows { Begins lane.old.seen lane.new.seen }
    ensures room { lane.old.spare ≤ lane.new.spare + 4 }
{
    let handled = words.read_handled(lane, fence, pass);
    let tasks = words.read_ran(lane, fence, pass);
    let submitted = words.read_submitted(lane, fence, pass);
    if submitted != tasks {
        return None;
    }
    let sent = words.read_sent(lane, fence, pass);
    Some(Row {
        sent,
        handled,
        tasks,
    })
}

/// A main in a fence learns what another main knows: rows, and the fence's receipt.
pub fn share<A: Facts>(words: &Words<A>, from: &mut Lane, to: &mut Lane, fence: u32, pass: u64)
    requires from { from.old.table ≡ words.now.table }
    requires to { IsInside words.now fence pass to.old }
    ensures from { from.new ≡ from.old }
    ensures inside { IsInside words.now fence pass to.new }
    ensures lane { to.new ≡ record to.old { seen = to.new.seen } }
    ensures learnt { (f p q : ℕ) (row : RowData) → HasRow f p q row from.old.seen → HasRow f p q row to.new.seen }
    ensures knew { (f p q : ℕ) (row : RowData) → HasRow f p q row to.old.seen → HasRow f p q row to.new.seen }
    ensures receipt { has_receipt fence from.old.seen ≡ true → has_receipt fence to.new.seen ≡ true }
{
    let told = words.tell(from);
    words.learn(to, told);
}

/// A main leaves the fence whose receipt it knows.
pub fn leave<A: Facts>(words: &Words<A>, lane: &mut Lane, fence: u32, pass: u64)
    requires inside { IsInside words.now fence pass lane.old }
    requires receipt { has_receipt fence lane.old.seen ≡ true }
    requires room { 0 < lane.old.spare }
    ensures outside { IsOutside words.now fence lane.new }
    ensures done { deeds lane.new.mine ≡ suc (deeds lane.old.mine) }
    ensures name { lane.new.name ≡ lane.old.name }
    ensures room { lane.old.spare ≤ lane.new.spare + 1 }
{
    words.mark_leave(lane, fence);
}

// The sum of three numbers.
fn sum(a: u64, b: u64, c: u64) -> u128
    ensures { result ≡ c + (b + (a + 0)) }
{
    u128::from(c) + (u128::from(b) + u128::from(a))
}

/// The rows of three ranks in a pass.
#[derive(Clone, Copy, Debug, PartialEq, Eq)]
pub struct ThreeRows {
    pub zero: Row,
    pub one: Row,
    pub two: Row,
}

impl ThreeRows {
    /// Whether as many messages were handled as sent.
    pub fn is_quiet(&self) -> bool
        ensures { result ≡ true → self.now.two.sent + (self.now.one.sent + (self.now.zero.sent + 0)) ≡ self.now.two.handled + (self.now.one.handled + (self.now.zero.handled + 0)) }
    {
        sum(self.zero.sent, self.one.sent, self.two.sent)
            == sum(self.zero.handled, self.one.handled, self.two.handled)
    }
}

/// The main of rank 0 makes the receipt of its fence from these rows, which two passes found, where they are quiet.
pub fn receive<A: Facts>(
    words: &Words<A>,
    lane: &mut Lane,
    fence: u32,
    pass: u64,
    rows: &ThreeRows,
) -> bool
    requires ranks { words.now.ranks ≡ 3 }
    requires inside { IsInside words.now fence (suc pass) lane.old }
    requires rank { lane.old.name.rank ≡ 0 }
    requires open { has_receipt_on_lane fence lane.old.mine ≡ false }
    requires first { (p : ℕ) × (pass ≡ suc (suc p)) × HasRows fence (suc p) rows.now.zero rows.now.one rows.now.two lane.old.seen }
    requires again { HasRows fence pass rows.now.zero rows.now.one rows.now.two lane.old.seen }
    requires room { 0 < lane.old.spare }
    ensures inside { IsInside words.now fence (suc pass) lane.new }
    ensures done { deeds lane.new.mine ≡ deeds lane.old.mine }
    ensures name { lane.new.name ≡ lane.old.name }
    ensures receipt { result ≡ true → has_receipt fence lane.new.seen ≡ true }
    ensures room { lane.old.spare ≤ lane.new.spare + 1 }
{
    let Some(kept) = Rows::of(&[rows.zero, rows.one, rows.two]) else {
        return false;
    };
    if rows.is_quiet() {
        let receipt = Receipt {
            fence,
            pass,
            rows: kept,
        };
        words.mark_receipt(lane, &receipt);
        return true;
    }
    false
}

/// The lanes of the mains of three ranks, with room for a hundred events each.
pub fn three_mains<A: Facts>(
    words: &Words<A>,
    root: &mut Root,
) -> Result<(Lane, Lane, Lane), ReserveError>
    requires table { root.old.table ≡ words.now.table }
    requires ranks { words.now.ranks ≡ 3 }
    requires new { root.old.seen ≡ [] }
    requires has { (l : LaneNameData) → IsLane 3 0 l → Contains root.old.parts (empty_part l) }
    ensures new { IfOk result (λ r. (r.0.mine ≡ []) × (r.1.mine ≡ []) × (r.2.mine ≡ [])) }
    ensures zero { IfOk result (λ r. IsOutside words.now 0 r.0 × (r.0.name.rank ≡ 0) × (100 ≤ r.0.spare)) }
    ensures one { IfOk result (λ r. IsOutside words.now 0 r.1 × (r.1.name.rank ≡ 1) × (100 ≤ r.1.spare)) }
    ensures two { IfOk result (λ r. IsOutside words.now 0 r.2 × (r.2.name.rank ≡ 2) × (100 ≤ r.2.spare)) }
{
    let mut zero = words.lane(root, ZERO);
    let mut one = words.lane(root, ONE);
    let mut two = words.lane(root, TWO);
    words.reserve(&mut zero, 100)?;
    words.reserve(&mut one, 100)?;
    words.reserve(&mut two, 100)?;
    Ok((zero, one, two))
}

/// The three mains, which completed a pass with these rows, tell them to each other through rank 0's.
pub fn tell_all<A: Facts>(
    words: &Words<A>,
    zero: &mut Lane,
    one: &mut Lane,
    two: &mut Lane,
    fence: u32,
    pass: u64,
    _rows: &ThreeRows,
)
    requires ranks { words.now.ranks ≡ 3 }
    requires names { (zero.old.name.rank ≡ 0) × (one.old.name.rank ≡ 1) × (two.old.name.rank ≡ 2) }
    requires few { pass < 100 }
    requires inside { IsInside words.now fence (suc pass) zero.old × IsInside words.now fence (suc pass) one.old × IsInside words.now fence (suc pass) two.old }
    requires rows { HasRow fence pass 0 _rows.now.zero zero.old.seen × HasRow fence pass 1 _rows.now.one one.old.seen × HasRow fence pass 2 _rows.now.two two.old.seen }
    ensures ready { AreReady words.now fence (suc pass) zero.new one.new two.new }
    ensures rows { HasRows fence pass _rows.now.zero _rows.now.one _rows.now.two zero.new.seen }
    ensures knew { (f p q : ℕ) (row : RowData) → HasRow f p q row zero.old.seen → HasRow f p q row zero.new.seen }
    ensures zero { zero.new ≡ record zero.old { seen = zero.new.seen } }
    ensures one { one.new ≡ record one.old { seen = one.new.seen } }
    ensures two { two.new ≡ record two.old { seen = two.new.seen } }
{
    share(words, one, zero, fence, pass + 1);
    share(words, two, zero, fence, pass + 1);
    share(words, zero, one, fence, pass + 1);
    share(words, zero, two, fence, pass + 1);
}

/// The three mains read their counts in a pass, where none has work in flight, and learn each other's rows.
pub fn read_all<A: Facts>(
    words: &Words<A>,
    zero: &mut Lane,
    one: &mut Lane,
    two: &mut Lane,
    fence: u32,
    pass: u64,
) -> Option<ThreeRows>
    requires ready { AreReady words.now fence pass zero.old one.old two.old }
    requires few { pass < 100 }
    requires room { (3 < zero.old.spare) × (3 < one.old.spare) × (3 < two.old.spare) }
    ensures ready { (rows : ThreeRowsData) → result ≡ Some rows → AreReady words.now fence (suc pass) zero.new one.new two.new }
    ensures rows { (rows : ThreeRowsData) → result ≡ Some rows → HasRows fence pass rows.zero rows.one rows.two zero.new.seen }
    ensures knew { (rows : ThreeRowsData) → result ≡ Some rows → (p q : ℕ) (row : RowData) → HasRow fence p q row zero.old.seen → HasRow fence p q row zero.new.seen }
    ensures open { has_receipt_on_lane fence zero.old.mine ≡ false → has_receipt_on_lane fence zero.new.mine ≡ false }
    ensures done { (rows : ThreeRowsData) → result ≡ Some rows → HaveDone 0 zero.old one.old two.old zero.new one.new two.new }
    ensures room { (zero.old.spare ≤ zero.new.spare + 4) × (one.old.spare ≤ one.new.spare + 4) × (two.old.spare ≤ two.new.spare + 4) }
{
    let Some(first) = attempt(words, zero, fence, pass) else {
        return None;
    };
    let Some(second) = attempt(words, one, fence, pass) else {
        return None;
    };
    let Some(third) = attempt(words, two, fence, pass) else {
        return None;
    };
    let rows = ThreeRows {
        zero: first,
        one: second,
        two: third,
    };
    tell_all(words, zero, one, two, fence, pass, &rows);
    Some(rows)
}

/// After the first pass of a fence, which found these rows: where the second finds the same, and they are quiet, rank 0's
/// main makes the receipt, and all leave.
pub fn finish_fence<A: Facts>(
    words: &Words<A>,
    zero: &mut Lane,
    one: &mut Lane,
    two: &mut Lane,
    fence: u32,
    first: &ThreeRows,
) -> bool
    requires ready { AreReady words.now fence 2 zero.old one.old two.old }
    requires rows { HasRows fence 1 first.now.zero first.now.one first.now.two zero.old.seen }
    requires open { has_receipt_on_lane fence zero.old.mine ≡ false }
    requires room { (6 ≤ zero.old.spare) × (5 ≤ one.old.spare) × (5 ≤ two.old.spare) }
    ensures outside { result ≡ true → AreOutside words.now fence zero.new one.new two.new }
    ensures done { result ≡ true → HaveDone 1 zero.old one.old two.old zero.new one.new two.new }
    ensures room { (zero.old.spare ≤ zero.new.spare + 6) × (one.old.spare ≤ one.new.spare + 5) × (two.old.spare ≤ two.new.spare + 5) }
{
    let Some(second) = read_all(words, zero, one, two, fence, 2) else {
        return false;
    };
    if *first != second || !receive(words, zero, fence, 2, &second) {
        return false;
    }
    share(words, zero, one, fence, 3);
    share(words, zero, two, fence, 3);
    leave(words, zero, fence, 3);
    leave(words, one, fence, 3);
    leave(words, two, fence, 3);
    true
}

/// The three mains go through their next fence, where two passes find the same quiet rows, which are the result.
pub fn pass_fence<A: Facts>(
    words: &Words<A>,
    zero: &mut Lane,
    one: &mut Lane,
    two: &mut Lane,
    left: u32,
) -> Option<ThreeRows>
    requires few { left < 100 }
    requires outside { AreOutside words.now left zero.old one.old two.old }
    requires room { (11 ≤ zero.old.spare) × (11 ≤ one.old.spare) × (11 ≤ two.old.spare) }
    requires next { WaitNext words.now zero.old one.old two.old }
    ensures outside { (rows : ThreeRowsData) → result ≡ Some rows → AreOutside words.now (left + 1) zero.new one.new two.new }
    ensures done { (rows : ThreeRowsData) → result ≡ Some rows → HaveDone 1 zero.old one.old two.old zero.new one.new two.new }
    ensures room { (zero.old.spare ≤ zero.new.spare + 11) × (one.old.spare ≤ one.new.spare + 11) × (two.old.spare ≤ two.new.spare + 11) }
{
    let fence = left + 1;
    enter(words, zero, left);
    enter(words, one, left);
    enter(words, two, left);
    let Some(first) = read_all(words, zero, one, two, fence, 1) else {
        return None;
    };
    if finish_fence(words, zero, one, two, fence, &first) {
        Some(first)
    } else {
        None
    }
}
