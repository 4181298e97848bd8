//! Many messages, each with a unit: rank 0's main sends them to ranks 1 to 4, whose mains take them, submit their units and
//! count them as handled, on one thread or on four.
ghost use Rattle.std.specs.Prelude.{◌≡◌, ◌≢◌, ℕ, ◌+◌, ◌*◌, ◌^◌, ◌<◌, ◌≤◌, [], Some, slice_get, IfOk, OnOk};
ghost use Rattle.event_laws.specs.Follows.{Start, program_at, deeds};
ghost use Rattle.words_tests.specs.Turns.{IsOutside};
ghost use Rattle.words_bench.specs.Many.{start_at, program, HasMains, IsNewMain, MayServe, AreMessages};

use anyhow::Result;
use app_core::{Facts, Label};
use event_lists::LaneName;
use std::alloc::{AllocError, Global};
use std::thread::{Threads, join};
use words_tests::turns::enter;
use words_tests::work::{serve_unit, start_unit};
use world_words::{Carrier, Lane, ReserveError, Root, Words};

const UNIT: Label = Label {
    command: 1,
    part: 0,
    place: 0,
};

/// An application that starts so many units at each of ranks 1 to 4. They have no effects.
#[derive(Clone, Copy, Debug, PartialEq, Eq)]
pub struct Many {
    pub count: u32,
}

impl Facts for Many {
    ghost use Rattle.std.specs.Prelude.{◌≡◌, [], ⊤};
    ghost use Rattle.words_bench.specs.Many.{kinds, starts};

    ghost ranks_of = { λ _. 5 };

    ghost kinds_of = { λ _. kinds };

    ghost starts_of = { λ app command. starts app.count command };

    ghost may_do = { λ _ _ os. os ≡ [] };

    ghost may_read = { λ _ _ _. ⊤ };

    ghost may_count = { λ _ _ _. ⊤ };

    ghost right_size = { λ _ _ _ _. ⊤ };

    ghost future_home_of = { λ _ _. 0 };

    ghost entry_home_of = { λ _ _. 0 };

    ghost dropped_of = { λ _ _. [] };
}

/// The lane of the main of a rank, with room for so many events.
pub fn main_lane<A: Facts>(
    words: &Words<A>,
    root: &mut Root,
    rank: u32,
    room: u32,
) -> Result<Lane, ReserveError>
    requires table { root.old.table ≡ words.now.table }
    requires rank { (rank < words.now.ranks) × (rank < 5) }
    requires new { root.old.seen ≡ [] }
    requires has { HasMains rank root.old.parts }
    ensures lane { IfOk result (λ l. IsNewMain words.now rank room l) }
    ensures root { OnOk result ((root.new.table ≡ root.old.table) × (root.new.seen ≡ []) × HasMains (rank + 1) root.new.parts) }
{
    let name = LaneName {
        rank,
        bin: false,
        number: 0,
    };
    let mut lane = words.lane(root, name);
    words.reserve(&mut lane, room)?;
    Ok(lane)
}

/// Rank 0's main starts so many units at another rank.
pub fn send_all<A: Facts>(
    words: &Words<A>,
    lane: &mut Lane,
    alloc: Global,
    to: u32,
    count: u32,
) -> Result<Vec<Carrier>, AllocError>
    requires outside { IsOutside words.now 0 lane.old }
    requires room { count ≤ lane.old.spare }
    requires target { (to < words.now.ranks) × (to ≢ lane.old.name.rank) }
    requires next { (k : ℕ) → k < count → slice_get (program_at lane.old.name.rank words.now.program) (k + deeds lane.old.mine) ≡ Some (Start (start_at to)) }
    ensures outside { OnOk result (IsOutside words.now 0 lane.new) }
    ensures done { OnOk result (deeds lane.new.mine ≡ count + deeds lane.old.mine) }
    ensures same { OnOk result ((lane.new.name ≡ lane.old.name) × (lane.old.spare ≤ lane.new.spare + count)) }
    ensures carriers { IfOk result (λ c. AreMessages words.now to count c.items) }
{
    let mut carriers = Vec::with_capacity(alloc, count as usize)?;
    for done in 0..count {
        let carrier = start_unit(words, lane, to, UNIT);
        carriers.push_reserved(carrier);
    }
    Ok(carriers)
}

/// The messages to ranks 1 to 4.
#[derive(Drop)]
pub struct Messages {
    pub one: Vec<Carrier>,
    pub two: Vec<Carrier>,
    pub three: Vec<Carrier>,
    pub four: Vec<Carrier>,
}

/// Rank 0's main starts so many units at each of ranks 1 to 4.
pub fn send_four<A: Facts>(
    words: &Words<A>,
    lane: &mut Lane,
    alloc: Global,
    count: u32,
) -> Result<Messages, AllocError>
    requires ranks { words.now.ranks ≡ 5 }
    requires program { words.now.program ≡ program count }
    requires new { IsNewMain words.now 0 (4 * count) lane.old }
    ensures one { IfOk result (λ m. AreMessages words.now 1 count m.one.items) }
    ensures two { IfOk result (λ m. AreMessages words.now 2 count m.two.items) }
    ensures three { IfOk result (λ m. AreMessages words.now 3 count m.three.items) }
    ensures four { IfOk result (λ m. AreMessages words.now 4 count m.four.items) }
{
    let one = send_all(words, lane, alloc, 1, count)?;
    let two = send_all(words, lane, alloc, 2, count)?;
    let three = send_all(words, lane, alloc, 3, count)?;
    let four = send_all(words, lane, alloc, 4, count)?;
    Ok(Messages {
        one,
        two,
        three,
        four,
    })
}

/// A main in its first fence, and the messages that it is to take.
#[derive(Drop)]
pub struct Portion {
    pub lane: Lane,
    pub carriers: Vec<Carrier>,
}

/// A main enters its first fence.
pub fn enter_with<A: Facts>(
    words: &Words<A>,
    mut lane: Lane,
    carriers: Vec<Carrier>,
    count: u32,
) -> Portion
    requires program { words.now.program ≡ program count }
    requires new { IsNewMain words.now lane.name.rank (3 * count + 1) lane }
    requires rank { 0 < lane.name.rank }
    requires carriers { AreMessages words.now lane.name.rank count carriers.items }
    ensures { MayServe words.now result.lane result.carriers.items }
{
    let _ = count;
    enter(words, &mut lane, 0);
    Portion { lane, carriers }
}

/// The main takes the messages, submits their units, and counts the messages as handled. How many events more it may append.
pub fn serve_all<A: Facts>(words: &Words<A>, portion: Portion) -> u64
    requires { MayServe words.now portion.lane portion.carriers.items }
{
    let Portion { mut lane, carriers } = portion;
    for carrier in carriers {
        serve_unit(words, &mut lane, carrier, UNIT, 1, 1);
    }
    lane.spare()
}

/// Two mains do so in two threads.
pub fn serve_beside<A: Facts + Sync, R: Threads + Sync>(
    rt: &R,
    words: &Words<A>,
    one: Portion,
    two: Portion,
) -> (u64, u64)
    requires one { MayServe words.now one.lane one.carriers.items }
    requires two { MayServe words.now two.lane two.carriers.items }
{
    join(
        rt,
        move || -> u64
            requires { MayServe words.now one.lane one.carriers.items }
        { serve_all(words, one) },
        move || -> u64
            requires { MayServe words.now two.lane two.carriers.items }
        { serve_all(words, two) },
    )
}

/// Four mains do so in four threads.
pub fn serve_four<A: Facts + Sync, R: Threads + Sync>(
    rt: &R,
    words: &Words<A>,
    one: Portion,
    two: Portion,
    three: Portion,
    four: Portion,
) -> (u64, u64, u64, u64)
    requires one { MayServe words.now one.lane one.carriers.items }
    requires two { MayServe words.now two.lane two.carriers.items }
    requires three { MayServe words.now three.lane three.carriers.items }
    requires four { MayServe words.now four.lane four.carriers.items }
{
    let (first, second) = join(
        rt,
        move || -> (u64, u64)
            requires { MayServe words.now one.lane one.carriers.items × MayServe words.now two.lane two.carriers.items }
        { serve_beside(rt, words, one, two) },
        move || -> (u64, u64)
            requires { MayServe words.now three.lane three.carriers.items × MayServe words.now four.lane four.carriers.items }
        { serve_beside(rt, words, three, four) },
    );
    (first.0, first.1, second.0, second.1)
}

/// The mains of ranks 1 to 4 in their first fence, and so many messages for each.
pub fn four_shares<A: Facts>(
    words: &Words<A>,
    root: &mut Root,
    alloc: Global,
    count: u32,
) -> Result<(Portion, Portion, Portion, Portion)>
    requires few { count ≤ 2 ^ 28 }
    requires ranks { words.now.ranks ≡ 5 }
    requires program { words.now.program ≡ program count }
    requires root { (root.old.table ≡ words.now.table) × (root.old.seen ≡ []) × HasMains 0 root.old.parts }
    ensures one { IfOk result (λ s. MayServe words.now s.0.lane s.0.carriers.items) }
    ensures two { IfOk result (λ s. MayServe words.now s.1.lane s.1.carriers.items) }
    ensures three { IfOk result (λ s. MayServe words.now s.2.lane s.2.carriers.items) }
    ensures four { IfOk result (λ s. MayServe words.now s.3.lane s.3.carriers.items) }
{
    let mut zero = main_lane(words, root, 0, 4 * count)?;
    let one = main_lane(words, root, 1, 3 * count + 1)?;
    let two = main_lane(words, root, 2, 3 * count + 1)?;
    let three = main_lane(words, root, 3, 3 * count + 1)?;
    let four = main_lane(words, root, 4, 3 * count + 1)?;
    let sent = send_four(words, &mut zero, alloc, count)?;
    Ok((
        enter_with(words, one, sent.one, count),
        enter_with(words, two, sent.two, count),
        enter_with(words, three, sent.three, count),
        enter_with(words, four, sent.four, count),
    ))
}
