//! Numbers at keys: what is stored of a tree.
ghost use Rattle.std.specs.Prelude.{◌≡◌, Some, OnOk, if◌then◌else◌};
ghost use Rattle.tree_key.specs.Keys.{Key as KeyData};
ghost use Rattle.tree_operations.specs.Numbers.{number_at, same_key};

use std::collections::BTreeMap;
use tree_key::{Key, OutOfMemory};

/// Numbers at keys, in key order.
pub type Numbers = BTreeMap<Key, i64>;

/// The number at a key, where there is one.
pub fn number_at(numbers: &Numbers, key: Key) -> Option<i64>
    ensures { result ≡ number_at numbers.now key }
{
    numbers.get(&key).copied()
}

/// Gives a key a number, in place of the one that it had.
pub fn set_number(numbers: &mut Numbers, key: Key, number: i64) -> Result<(), OutOfMemory>
    ensures { OnOk result ((k : KeyData) → number_at numbers.new k
        ≡ (if same_key key k then Some number else number_at numbers.old k)) }
{
    numbers.insert(key, number)?;
    Ok(())
}
