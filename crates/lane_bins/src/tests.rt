//! The bins of a rank of a small run: look-ups wait in them, and all lanes come back.
ghost use Rattle.std.specs.Prelude.{◌≡◌, true, Some, List, [], ◌∷◌, map, All, IfOk};
ghost use Rattle.event_books.specs.Books.{lanes_from};
ghost use Rattle.world_words.specs.Lanes.{LaneView};
ghost use Rattle.world_words.specs.Closing.{name_of, new_lane, IsFree};

use crate::LaneContainer;
use crate::laws::new_lanes_are_those_of_bins;
use app_core::CellName;
use future_cell::Callback;
use small_app::SmallApp;
use std::alloc::Global;
use std::marker::Brand;
use std::sync::Wait;
use std::test::Fail;
use world_carriers::WordsNaming;
use world_words::{Lanes, RankLanes, Words};

// The entry that the reading unit of the small application reads, in bin 2.
const ENTRY: CellName = CellName {
    version: 1,
    place: 2,
};

// Look-ups wait in the bins of a rank, and the lanes of the bins come back.
fn wait_in_bins<J: WordsNaming<SmallApp>, R: Wait>(
    rt: &R,
    alloc: Global,
    words: &Words<SmallApp>,
    lanes: RankLanes,
) -> Result<(bool, RankLanes), Fail>
    requires named { (J.app ≡ Some words.now.app) × (J.words ≡ Some words.now) }
    requires one { words.now.app.ranks ≡ 1 }
    requires lanes { lanes ≡ map (new_lane words.now) (lanes_from true 0 0 16) }
    ensures names { IfOk result (λ r. map name_of r.1 ≡ lanes_from true 0 0 16) }
    ensures free { IfOk result (λ r. All (IsFree words.now) r.1) }
{
    new_lanes_are_those_of_bins::<SmallApp>();
    let bins: LaneContainer<SmallApp, J> = LaneContainer::new(alloc, 0, lanes)?;
    let waits = wait_in(rt, words, &bins)?;
    Ok((waits, bins.into_lanes(rt)))
}

// Whether a look-up waits in the bin of its name, where nothing waited, and there is room for an event.
fn wait_in<J: WordsNaming<SmallApp>, R: Wait>(
    rt: &R,
    words: &Words<SmallApp>,
    bins: &LaneContainer<SmallApp, J>,
) -> Result<bool, Fail>
    requires named { (J.app ≡ Some words.now.app) × (J.words ≡ Some words.now) }
    requires one { words.now.app.ranks ≡ 1 }
    requires rank { bins.now ≡ 0 }
{
    let mut access = bins.access(rt, ENTRY);
    let bin = access.bin();
    bin.reserve(words, 3)?;
    let found = bin.find_or_wait(ENTRY, Callback::Task { id: 7, index: 0 })?;
    let told = bin.tell(words);
    bin.learn(words, told);
    Ok(
        found.is_none()
            && bin.spare() == 3
            && (bin.rank(), bin.number()) == (0, 2)
            && bin.size_of(1) == 0,
    )
}

// The same for these words.
fn wait_here<R: Wait>(
    rt: &R,
    alloc: Global,
    words: &Words<SmallApp>,
    lanes: RankLanes,
) -> Result<(bool, RankLanes), Fail>
    requires one { words.now.app.ranks ≡ 1 }
    requires lanes { lanes ≡ map (new_lane words.now) (lanes_from true 0 0 16) }
    ensures names { IfOk result (λ r. map name_of r.1 ≡ lanes_from true 0 0 16) }
    ensures free { IfOk result (λ r. All (IsFree words.now) r.1) }
{
    wait_in_bins::<Brand, R>(rt, alloc, words, lanes)
}

// The only row.
fn only(mut rows: Vec<RankLanes>) -> Option<RankLanes>
    ensures { (row : List LaneView) → rows.items ≡ row ∷ [] → result ≡ Some row }
{
    rows.pop()
}

// The bins of a run with one rank, and no worker: whether look-ups wait, and how many lanes have a part in the book.
fn closed<R: Wait>(rt: &R, alloc: Global, trace: bool) -> Result<(bool, usize), Fail> {
    let (words, lanes) = Words::new(alloc, &SmallApp { ranks: 1 }, 1, 0, trace)?;
    let Lanes { hands, bins, root } = lanes;
    let Some(row) = only(bins) else {
        return Err(Fail::from("one row of bins"));
    };
    let (waits, row) = wait_here(rt, alloc, &words, row)?;
    let bins = vec![in alloc; row]?;
    let (track, book) = words.close(Lanes { hands, bins, root });
    track.is_lawful();
    Ok((waits, book.parts().len()))
}

#[test]
fn look_ups_wait_and_all_lanes_come_back(rt: HostRuntime) -> Result<(), Fail> {
    for trace in [false, true] {
        assert_eq!(rt; closed(&rt, rt.alloc(), trace)?, (true, 0));
    }
    Ok(())
}
