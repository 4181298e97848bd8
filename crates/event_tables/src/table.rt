//! Maps that have a value for every key.
ghost use Rattle.std.specs.Prelude.{◌≡◌, OnOk, Bool, true, if◌then◌else◌};
ghost use Rattle.std.specs.Ordering.{is_eq};
ghost use Rattle.event_tables.specs.Tables.{value_at, has_place};

use app_core::OutOfMemory;
use std::alloc::Global;
use std::collections::BTreeMap;

/// Keys whose order tells them apart.
pub trait Key: Ord + Copy {
    /// Whether two keys are one.
    ghost same: { Self → Self → Bool };

    /// Two keys compare as equal exactly where they are one.
    fn told_apart()
        ensures apart { (a b : Self) → is_eq (Self.cmp a b) ≡ same a b }
        ensures one { (a b : Self) → same a b ≡ true → a ≡ b };
}

/// A value for every key: the stored one, or the one that all keys have that were never set.
#[derive(Drop)]
pub struct Table<K: Key, V> {
    entries: BTreeMap<K, V>,
    absent: V,
}

impl<K: Key, V: Copy> Table<K, V> {
    /// Every key has this value.
    pub fn new(alloc: Global, absent: V) -> Table<K, V>
        ensures { (k : K) → value_at K.same result k ≡ absent }
    {
        Table {
            entries: BTreeMap::new(alloc),
            absent,
        }
    }

    /// The value of a key.
    pub fn get(&self, key: K) -> V
        ensures { result ≡ value_at K.same self.now key }
    {
        K::told_apart();
        match self.entries.get(&key) {
            Some(value) => *value,
            None => self.absent,
        }
    }

    /// Makes room for the value of a key, which stays.
    pub fn touch(&mut self, key: K) -> Result<(), OutOfMemory>
        ensures values { (k : K) → value_at K.same self.new k ≡ value_at K.same self.old k }
        ensures places { (k : K) → has_place K.same self.old k ≡ true → has_place K.same self.new k ≡ true }
        ensures place { OnOk result (has_place K.same self.new key ≡ true) }
    {
        K::told_apart();
        if self.entries.contains_key(&key) {
            return Ok(());
        }
        match self.entries.insert(key, self.absent) {
            Ok(_) => Ok(()),
            Err(_) => Err(OutOfMemory),
        }
    }

    /// Gives a key a value, for which there is room.
    pub fn set(&mut self, key: K, value: V)
        requires { has_place K.same self.old key ≡ true }
        ensures values { (k : K) → value_at K.same self.new k ≡ (if K.same key k then value else value_at K.same self.old k) }
        ensures places { (k : K) → has_place K.same self.old k ≡ true → has_place K.same self.new k ≡ true }
    {
        K::told_apart();
        // A key that has room takes no memory.
        let _ = self.entries.insert(key, value);
    }
}
