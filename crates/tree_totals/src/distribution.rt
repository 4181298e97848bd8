//! Keys distributed over ranks.
ghost use Rattle.std.specs.Prelude.{◌≡◌, ◌≤◌, ◌<◌};

use owner_map::OwnerMap;
use tree_key::Key;

/// Keys distributed over 1 to 16 ranks by an owner map.
#[derive(Clone, Copy, Debug, PartialEq, Eq)]
pub struct Distribution {
    /// Which rank owns a key.
    pub map: OwnerMap,
    /// The number of ranks.
    pub ranks: u32,
    pub ghost some: { 1 ≤ ranks },
    pub ghost few: { ranks ≤ 16 },
}

impl Distribution {
    ghost use Rattle.tree_model.specs.TotalLaws.{cuts_below, cuts_up};
    ghost use Rattle.tree_totals.specs.Counts.{distribution_of};

    // The owner of a key.
    fn owner(&self, key: Key) -> u32
        ensures { result ≡ (distribution_of self.now).owner key }
    {
        self.map.owner(key, self.ranks)
    }

    // Of a key with this owner and those on the way up from it, on to the first that is a right child, how many have another
    // owner than their parent.
    fn cuts_from(&self, key: Key, key_owner: u32) -> u64
        requires { key_owner ≡ (distribution_of self.now).owner key }
        ensures cuts { result ≡ cuts_up (distribution_of self.now).owner key }
        ensures few { result ≤ key.level }
    {
        let Some(parent) = key.parent() else {
            return 0;
        };
        let above = self.owner(parent);
        let here = u64::from(key_owner != above);
        if key.at() % 2 == 0 {
            here + self.cuts_from(parent, above)
        } else {
            here
        }
    }

    /// Of a key and those on the way up from it, on to the first that is a right child, how many have another owner than
    /// their parent.
    pub fn cuts_up(&self, key: Key) -> u64
        ensures cuts { result ≡ cuts_up (distribution_of self.now).owner key }
        ensures few { result ≤ 16 }
    {
        self.cuts_from(key, self.owner(key))
    }

    /// How many children of a key have another owner than the key.
    pub fn cuts_below(&self, key: Key) -> u64
        requires { key.level < 16 }
        ensures cuts { result ≡ cuts_below (distribution_of self.now).owner key }
        ensures few { result ≤ 2 }
    {
        let above = self.owner(key);
        let left = self.owner(key.child(false));
        let right = self.owner(key.child(true));
        u64::from(left != above) + u64::from(right != above)
    }
}
