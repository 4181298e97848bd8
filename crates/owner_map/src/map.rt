//! The owner maps, and their words.
ghost use Rattle.std.specs.Prelude.{◌≡◌, ◌<◌, ◌≤◌};
ghost use Rattle.std.specs.Str.{bytes_eq};
ghost use Rattle.owner_map.specs.Owners.{map_of_word, spread, is_spread_by_itself, owner};

use tree_key::Key;

/// How the keys of a tree are spread over the ranks. After the process maps of MADNESS.
#[derive(Clone, Copy, Debug, PartialEq, Eq)]
pub enum OwnerMap {
    /// Each rank has a block of neighbours on each level, from left to right.
    Block,

    /// Neighbours on a level are three ranks apart, and the first keys of two levels seven, round and round.
    Spread,

    /// As `Spread`, but the keys of levels 4, 6, 8 and so on belong to their parents' owners: in outline after
    /// `LevelPmap` of MADNESS.
    Level,
}

// Whether a word is this one.
fn is_word(word: &[u8], text: &[u8]) -> bool
    ensures { result ≡ bytes_eq word.now text.now }
{
    word == text
}

// Level by level, and on a level three ranks on from neighbour to neighbour.
fn spread_owner(key: Key, ranks: u32) -> u32
    requires { 1 ≤ ranks }
    ensures { result ≡ spread key ranks }
{
    (7 * u32::from(key.level()) + 3 * key.at()) % ranks
}

// Whether the map by levels takes the key by itself, and not its parent.
fn is_alone(key: Key) -> bool
    ensures { result ≡ is_spread_by_itself key }
{
    key.level() <= 3 || key.level() % 2 == 1
}

impl OwnerMap {
    /// The map that is called `block`, `spread` or `level`. None exactly for any other word.
    pub fn of_word(word: &[u8]) -> Option<OwnerMap>
        ensures { result ≡ map_of_word word.now }
    {
        if is_word(word, b"block") {
            Some(OwnerMap::Block)
        } else if is_word(word, b"spread") {
            Some(OwnerMap::Spread)
        } else if is_word(word, b"level") {
            Some(OwnerMap::Level)
        } else {
            None
        }
    }

    /// The owner of a key among 1 to 16 ranks, from 0.
    pub fn owner(self, key: Key, ranks: u32) -> u32
        requires some { 1 ≤ ranks }
        requires few { ranks ≤ 16 }
        ensures owner { result ≡ owner self key ranks }
        ensures rank { result < ranks }
    {
        match self {
            OwnerMap::Block => key.at() * ranks >> key.level(),
            OwnerMap::Spread => spread_owner(key, ranks),
            OwnerMap::Level => match key.parent() {
                Some(parent) if !is_alone(key) => spread_owner(parent, ranks),
                _ => spread_owner(key, ranks),
            },
        }
    }
}
