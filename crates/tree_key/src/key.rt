//! Keys of a dyadic tree.
ghost use Rattle.std.specs.Prelude.{◌≡◌, ◌≢◌, ◌^◌, ◌<◌, ◌≤◌, ◌↔◌, IsTrue, IsSome, IfSome, IfNone, Some, ◌++◌, codes};
ghost use Rattle.std.specs.Fmt.{decimal};
ghost use Rattle.tree_key.specs.Keys.{Key as KeyData, IsKey, Contains, root, child, parent, place_of};

use std::fmt;
use std::marker::Model;

/// A key: a level from 0 to 16, and a translation below two to the level.
///
/// Keys are ordered by level, and then by translation.
#[derive(Clone, Copy, Debug, PartialEq, Eq, PartialOrd, Ord, Hash)]
pub struct Key {
    level: u8,
    at: u32,
}

impl Model for Key {
    ghost use Rattle.std.specs.Prelude.{◌≤◌, ◌<◌, ◌^◌};
    ghost use Rattle.tree_key.specs.Keys.{Key as KeyData};

    ghost Value = { KeyData };

    ghost view = { λ k. record { level = k.level; at = k.at } };

    ghost invariant = { λ k. (k.level ≤ 16) × (k.at < 2 ^ k.level) };

    ghost inverse = { λ k. record { level = k.level; at = k.at } };
}

impl Key {
    /// The key of a level and a translation. None exactly where the pair isn't a key: the level is above 16, or the
    /// translation isn't below two to the level.
    pub fn new(level: u8, at: u32) -> Option<Key>
        ensures some { IsSome result ↔ IsKey (record { level = level; at = at }) }
        ensures parts { IfSome result (λ k. k ≡ record { level = level; at = at }) }
    {
        if level <= 16 && at < 1 << level {
            Some(Key { level, at })
        } else {
            None
        }
    }

    /// The key whose box is all cells.
    pub fn root() -> Key
        ensures { result ≡ root }
    {
        Key { level: 0, at: 0 }
    }

    /// The level, from 0 to 16.
    pub fn level(self) -> u8
        ensures value { result ≡ self.level }
        ensures key { IsKey self }
    {
        self.level
    }

    /// The translation: which key of its level it is, from 0 on the left.
    pub fn at(self) -> u32
        ensures value { result ≡ self.at }
        ensures key { IsKey self }
    {
        self.at
    }

    /// The left or the right child.
    pub fn child(self, right: bool) -> Key
        requires { self.level < 16 }
        ensures { result ≡ child self right }
    {
        Key {
            level: self.level + 1,
            at: 2 * self.at + u32::from(right),
        }
    }

    /// The key of which this one is a child. None exactly for the root.
    pub fn parent(self) -> Option<Key>
        ensures { result ≡ parent self }
    {
        if self.level == 0 {
            None
        } else {
            Some(Key {
                level: self.level - 1,
                at: self.at / 2,
            })
        }
    }

    /// Whether the box of `other` lies in that of this key; a key contains itself.
    pub fn contains(self, other: Key) -> bool
        ensures { IsTrue result ↔ Contains self other }
    {
        self.level <= other.level && other.at >> (other.level - self.level) == self.at
    }

    /// A number of the key's own, in the keys' order: two to the level, plus the translation. The root has 1.
    pub fn place(self) -> u64
        ensures { result ≡ place_of self }
    {
        (1 << self.level) + u64::from(self.at)
    }

    /// The key of that place. None exactly where no key has it: it is 0, or two to the 17 or more.
    pub fn of_place(place: u64) -> Option<Key>
        ensures some { IfSome result (λ k. IsKey k × (place_of k ≡ place)) }
        ensures none { IfNone result ((k : KeyData) → IsKey k → place_of k ≢ place) }
    {
        if place == 0 || place >= 1 << 17 {
            return None;
        }
        let level = place.ilog2();
        Some(Key {
            level: level as u8,
            at: (place - (1 << level)) as u32,
        })
    }
}

/// Prints the level and the translation, with a blank between them.
impl fmt::Display for Key {
    ghost output = { λ k. Some (decimal k.level ++ codes " " ++ decimal k.at) };

    fn fmt<W: fmt::Write>(&self, f: &mut fmt::Formatter<W>) -> fmt::Result {
        let level = self.level;
        let at = self.at;
        write!(f, "{level} {at}")
    }
}

#[cfg(test)]
mod tests {
    use super::*;
    use std::process::Abort;
    use std::test::Fail;

    fn key(rt: &impl Abort, level: u8, at: u32) -> Key {
        Key::new(level, at).expect(rt, "the pair is a key")
    }

    #[test]
    fn new_takes_exactly_the_keys(rt: HostRuntime) {
        let cases = [
            (0, 0, true),
            (0, 1, false),
            (1, 1, true),
            (1, 2, false),
            (16, 65535, true),
            (16, 65536, false),
            (17, 0, false),
            (255, u32::MAX, false),
        ];
        for (level, at, is_key) in cases {
            assert_eq!(rt; Key::new(level, at).is_some(), is_key, "at {level} {at}");
        }
        let deepest = key(&rt, 16, 65535);
        assert_eq!(rt; (deepest.level(), deepest.at()), (16, 65535));
    }

    #[test]
    fn families_are_related(rt: HostRuntime) {
        let right = Key::root().child(true);
        assert_eq!(rt; right, key(&rt, 1, 1));
        assert_eq!(rt; right.child(false), key(&rt, 2, 2));
        assert_eq!(rt; right.child(true), key(&rt, 2, 3));
        assert_eq!(rt; right.child(true).parent(), Some(right));
        assert_eq!(rt; right.parent(), Some(Key::root()));
        assert_eq!(rt; Key::root().parent(), None);
    }

    #[test]
    fn boxes_contain_what_lies_below(rt: HostRuntime) {
        let cases = [
            ((0, 0), (16, 65535), true),
            ((1, 1), (3, 4), true),
            ((1, 1), (3, 3), false),
            ((2, 1), (2, 1), true),
            ((2, 1), (2, 2), false),
            ((3, 4), (1, 1), false),
            ((2, 0), (1, 0), false),
        ];
        for ((level, at), (other_level, other_at), expected) in cases {
            let contains = key(&rt, level, at).contains(key(&rt, other_level, other_at));
            assert_eq!(rt;
                contains,
                expected,
                "{level} {at} and {other_level} {other_at}"
            );
        }
    }

    #[test]
    fn places_give_their_keys_back(rt: HostRuntime) {
        let cases = [
            (1, 0, 0),
            (2, 1, 0),
            (7, 2, 3),
            (65536, 16, 0),
            (131071, 16, 65535),
        ];
        for (place, level, at) in cases {
            let expected = key(&rt, level, at);
            assert_eq!(rt; Key::of_place(place), Some(expected), "of place {place}");
            assert_eq!(rt; expected.place(), place);
        }
        for place in [0, 131072, u64::MAX] {
            assert_eq!(rt; Key::of_place(place), None, "of place {place}");
        }
    }

    #[test]
    fn keys_go_by_level_and_then_by_place(rt: HostRuntime) {
        let ascending = [(0, 0), (1, 0), (1, 1), (2, 0), (2, 3), (16, 0)];
        for (i, (level, at)) in ascending.iter().enumerate() {
            for (j, (other_level, other_at)) in ascending.iter().enumerate() {
                let before = key(&rt, *level, *at) < key(&rt, *other_level, *other_at);
                assert_eq!(rt; before, i < j, "{i} and {j}");
            }
        }
    }

    #[test]
    fn a_key_prints_its_level_and_its_place(rt: HostRuntime) -> Result<(), Fail> {
        let printed = key(&rt, 12, 4095).to_string(rt.alloc())?;
        assert_eq!(rt; printed.as_str(), "12 4095");
        Ok(())
    }
}
