//! What holds of the owners of all keys: each function's contract is a law, and its body is empty.
ghost use Rattle.owner_map.specs.Laws.{OwnersAreRanks, RootIsAtZero, LeftStaysInItsBlock, BlocksAreInOrder, PairsOfLevelsStayTogether};

/// Each key's owner is one of the ranks, and the root's is rank 0.
pub fn owners_are_ranks()
    ensures rank { OwnersAreRanks }
    ensures root { RootIsAtZero }
{}

/// By blocks, the ranks own the keys of a level from left to right, and a left child belongs to its parent's owner.
pub fn blocks_are_neighbours()
    ensures left { LeftStaysInItsBlock }
    ensures order { BlocksAreInOrder }
{}

/// By levels, a key of level 4, 6, 8 and so on belongs to its parent's owner.
pub fn pairs_of_levels_stay_together()
    ensures { PairsOfLevelsStayTogether }
{}
