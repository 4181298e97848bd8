//! Labels of units and futures, and names of entries.
ghost use Rattle.std.specs.Prelude.{◌≡◌};
ghost use Rattle.tree_key.specs.Keys.{place_of};
ghost use Rattle.haar_units.specs.Units as named;

use app_core::{CellName, Label};
use tree_key::Key;

// A label by its parts.
fn label(command: u32, part: u8, place: u64) -> Label
    ensures { result ≡ named.label command part place }
{
    Label {
        command,
        part,
        place,
    }
}

/// The label of the unit that visits a key, and of the key's future.
pub fn down(command: u32, key: Key) -> Label
    ensures { result ≡ named.down_unit command (place_of key) }
{
    label(command, 0, key.place())
}

/// The label of the unit that combines what the children of a key gave.
pub fn up(command: u32, key: Key) -> Label
    ensures { result ≡ named.up_unit command (place_of key) }
{
    label(command, 1, key.place())
}

/// The label of the unit that erases the entry of a key.
pub fn clear(command: u32, key: Key) -> Label
    ensures { result ≡ named.erase_unit command (place_of key) }
{
    label(command, 2, key.place())
}

/// The label of the unit that counts the entries on a rank.
pub fn count(command: u32, rank: u32) -> Label
    ensures { result ≡ named.count_unit command rank }
{
    label(command, 3, u64::from(rank))
}

/// The label of the unit that adds the counts.
pub fn total(command: u32) -> Label
    ensures { result ≡ named.sum_unit command }
{
    label(command, 4, 1)
}

/// The future of a rank's count.
pub fn counted(command: u32, rank: u32) -> Label
    ensures { result ≡ named.count_future command rank }
{
    label(command, 1, u64::from(rank))
}

/// The future of a command's result.
pub fn result(command: u32) -> Label
    ensures { result ≡ named.key_future command 1 }
{
    label(command, 0, 1)
}

/// The entry of a version at a key.
pub fn entry(version: u32, key: Key) -> CellName
    ensures { result ≡ named.entry version (place_of key) }
{
    CellName {
        version,
        place: key.place(),
    }
}
