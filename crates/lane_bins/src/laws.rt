//! Laws on the lanes of bins. The functions do nothing.
ghost use Rattle.std.specs.Prelude.{◌≡◌, ℕ, true, Some, map, All};
ghost use Rattle.event_books.specs.Books.{lanes_from};
ghost use Rattle.world_words.specs.Lanes.{WordsView};
ghost use Rattle.world_words.specs.Closing.{name_of, new_lane};
ghost use Rattle.lane_bins.specs.LaneBins.{IsNewBinLane};

/// The lanes of a rank's bins that `Words::new` makes are lanes of bins before any event, by number.
pub fn new_lanes_are_those_of_bins<A>()
    ensures names { (words : WordsView A) (rank : ℕ) → map name_of (map (new_lane words) (lanes_from true rank 0 16)) ≡ lanes_from true rank 0 16 }
    ensures new { (words : WordsView A) (rank : ℕ) → All (IsNewBinLane (Some words)) (map (new_lane words) (lanes_from true rank 0 16)) }
{}
