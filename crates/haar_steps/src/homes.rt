//! The ranks where units run and that keep futures.
ghost use Rattle.std.specs.Prelude.{◌≡◌, Some};
ghost use Rattle.app_core.specs.Commands.{IsRankCount};
ghost use Rattle.app_core.specs.Homes.{rank_within};
ghost use Rattle.haar_base.specs.Units as units;

use app_core::Label;
use haar_base::Unit;
use owner_map::OwnerMap;
use tree_key::Key;

// The rank that a rule names, or rank 0 where it isn't there.
fn rank_within(ranks: u32, rank: u32) -> u32
    ensures { result ≡ rank_within ranks (Some rank) }
{
    if rank < ranks { rank } else { 0 }
}

/// The rank where a unit runs, below `ranks`.
pub fn home(map: OwnerMap, unit: &Unit, ranks: u32) -> u32
    requires { IsRankCount ranks }
    ensures { result ≡ units.home_of map unit.now ranks }
{
    match unit {
        Unit::Down(down) => rank_within(ranks, map.owner(down.key, ranks)),
        Unit::Up(up) => rank_within(ranks, map.owner(up.key, ranks)),
        Unit::Clear { command: _, key } => rank_within(ranks, map.owner(*key, ranks)),
        Unit::Count { command: _, rank } => rank_within(ranks, *rank),
        Unit::Total { .. } => rank_within(ranks, 0),
    }
}

/// The rank that keeps a future, below `ranks`: the owner of the key above, or rank 0.
pub fn future_home(map: OwnerMap, future: &Label, ranks: u32) -> u32
    requires { IsRankCount ranks }
    ensures { result ≡ units.kept_at map future.now ranks }
{
    if future.part > 0 {
        return 0;
    }
    match Key::of_place(future.place / 2) {
        Some(parent) => rank_within(ranks, map.owner(parent, ranks)),
        None => 0,
    }
}
