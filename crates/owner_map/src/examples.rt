//! The definitions, computed. The numbers were worked out by hand.
ghost use Rattle.std.specs.Prelude.{◌≡◌, codes, Some, None};
ghost use Rattle.owner_map.specs.declared.map.OwnerMap.TheVariants.{Block, Spread, Level};
ghost use Rattle.owner_map.specs.Owners.{map_of_word, owner};

/// The sixth key of level 4 among 5 ranks: 25 / 16, 43 mod 5, and as its parent by levels, 27 mod 5.
fn a_key_of_level_four()
    ensures block { owner Block (record { level = 4; at = 5 }) 5 ≡ 1 }
    ensures spread { owner Spread (record { level = 4; at = 5 }) 5 ≡ 3 }
    ensures level { owner Level (record { level = 4; at = 5 }) 5 ≡ 2 }
{}

/// By levels, keys of level 3 and 5 are spread by themselves: 30 mod 16 and 62 mod 16. A key of level 2 too: 23 mod 16.
fn keys_that_are_spread_by_themselves()
    ensures third { owner Level (record { level = 3; at = 3 }) 16 ≡ 14 }
    ensures fifth { owner Level (record { level = 5; at = 9 }) 16 ≡ 14 }
    ensures second { owner Level (record { level = 2; at = 3 }) 16 ≡ 7 }
{}

/// The last key of level 16 belongs to the last of 16 ranks by blocks, and by levels to its parent's owner.
fn the_last_key()
    ensures block { owner Block (record { level = 16; at = 65535 }) 16 ≡ 15 }
    ensures spread { owner Spread (record { level = 16; at = 65535 }) 16 ≡ 13 }
    ensures level { owner Level (record { level = 16; at = 65535 }) 16 ≡ 6 }
{}

/// A map has one word, in small letters.
fn words()
    ensures block { map_of_word (codes "block") ≡ Some Block }
    ensures spread { map_of_word (codes "spread") ≡ Some Spread }
    ensures level { map_of_word (codes "level") ≡ Some Level }
    ensures capital { map_of_word (codes "Block") ≡ None }
    ensures longer { map_of_word (codes "blocks") ≡ None }
    ensures empty { map_of_word (codes "") ≡ None }
{}
