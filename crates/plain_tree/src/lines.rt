//! The lines that commands write.
ghost use Rattle.std.specs.Prelude.{◌≡◌, ◌++◌, ℕ, OnOk, codes, decimal};
ghost use Rattle.std.specs.BTreeMap.{IsOrdered};
ghost use Rattle.std.specs.Fmt.{signed_decimal};
ghost use Rattle.std.specs.List.{flat_map};
ghost use Rattle.tree_key.specs.Keys.{key_cmp};
ghost use Rattle.tree_model.specs.OperationTexts.{printed_lines};
ghost use Rattle.tree_model.specs.Versions.{Version};
ghost use Rattle.tree_operations.specs.StoredTrees.{KeepsForm};
ghost use Rattle.plain_tree.specs.Lines.{number_line, sums_text, differences_text};

use itoa::Buffer;
use tree_key::{Key, OutOfMemory, Text};
use tree_operations::{Compressed, Numbers, StoredTree};

// Adds a number.
fn add_unsigned(text: &mut Text, number: u32) -> Result<(), OutOfMemory>
    ensures { OnOk result (text.new ≡ text.old ++ decimal number) }
{
    let mut buffer = Buffer::new();
    text.add(buffer.format(number).as_bytes())
}

// Adds a number with its sign.
fn add_signed(text: &mut Text, number: i64) -> Result<(), OutOfMemory>
    ensures { OnOk result (text.new ≡ text.old ++ signed_decimal number) }
{
    let mut buffer = Buffer::new();
    text.add(buffer.format(number).as_bytes())
}

// Adds a long number with its sign.
fn add_wide(text: &mut Text, number: i128) -> Result<(), OutOfMemory>
    ensures { OnOk result (text.new ≡ text.old ++ signed_decimal number) }
{
    let mut buffer = Buffer::new();
    text.add(buffer.format(number).as_bytes())
}

// Adds the line of a key: its level, its place, and the number stored there.
fn add_number(text: &mut Text, key: Key, number: i64) -> Result<(), OutOfMemory>
    ensures { OnOk result (text.new ≡ text.old ++ number_line (key, number)) }
{
    add_unsigned(text, u32::from(key.level()))?;
    text.add(b" ")?;
    add_unsigned(text, key.at())?;
    text.add(b" ")?;
    add_signed(text, number)?;
    text.add(b"\n")
}

// Adds the lines of all keys, in order.
fn add_numbers(text: &mut Text, numbers: &Numbers) -> Result<(), OutOfMemory>
    ensures text { OnOk result (text.new ≡ text.old ++ flat_map number_line numbers.now.entries) }
    ensures order { IsOrdered key_cmp numbers.now }
{
    for (key, number) in numbers.iter() {
        add_number(text, *key, *number)?;
    }
    Ok(())
}

// Adds the words that name a tree.
fn add_name(text: &mut Text, name: &[u8]) -> Result<(), OutOfMemory>
    ensures { OnOk result (text.new ≡ text.old ++ (codes "tree " ++ name.now)) }
{
    text.add(b"tree ")?;
    text.add(name)
}

// Adds what `print` writes of a reconstructed tree: a line that names it, and the line of each leaf.
fn add_reconstructed(text: &mut Text, name: &[u8], leaves: &Numbers) -> Result<(), OutOfMemory>
    ensures text { OnOk result (text.new ≡ text.old ++ sums_text name.now leaves.now.entries) }
    ensures order { OnOk result (IsOrdered key_cmp leaves.now) }
{
    add_name(text, name)?;
    text.add(b" reconstructed\n")?;
    add_numbers(text, leaves)
}

// Adds the line that names a compressed tree and has its sum.
fn add_heading(text: &mut Text, name: &[u8], sum: i64) -> Result<(), OutOfMemory>
    ensures { OnOk result
        (text.new ≡ text.old ++ (codes "tree " ++ name.now ++ codes " compressed " ++ signed_decimal sum ++ codes "\n")) }
{
    add_name(text, name)?;
    text.add(b" compressed ")?;
    add_signed(text, sum)?;
    text.add(b"\n")
}

// Adds what `print` writes of a compressed tree: a line that names it and has its sum, and the line of each key that has
// children.
fn add_compressed(text: &mut Text, name: &[u8], tree: &Compressed) -> Result<(), OutOfMemory>
    ensures text { OnOk result
        (text.new ≡ text.old ++ differences_text name.now tree.now.sum tree.now.differences.entries) }
    ensures order { OnOk result (IsOrdered key_cmp tree.now.differences) }
{
    add_heading(text, name, tree.sum)?;
    add_numbers(text, &tree.differences)
}

/// Adds what `print` writes of a tree in the form that it is stored in.
pub fn add_tree(text: &mut Text, name: &[u8], kept: &StoredTree) -> Result<(), OutOfMemory>
    ensures { OnOk result ((depth : ℕ) (version : Version) →
        KeepsForm depth version.form version.tree kept.now →
        text.new ≡ text.old ++ printed_lines version.form name.now version.tree) }
{
    match kept {
        StoredTree::Reconstructed(leaves) => add_reconstructed(text, name, leaves),
        StoredTree::Compressed(tree) => add_compressed(text, name, tree),
    }
}

/// Adds what `size` writes: the name of a tree, and the number of its keys.
pub fn add_size(text: &mut Text, name: &[u8], size: usize) -> Result<(), OutOfMemory>
    ensures { OnOk result (text.new
        ≡ text.old ++ (codes "size " ++ name.now ++ codes " " ++ decimal size ++ codes "\n")) }
{
    let mut buffer = Buffer::new();
    text.add(b"size ")?;
    text.add(name)?;
    text.add(b" ")?;
    text.add(buffer.format(size).as_bytes())?;
    text.add(b"\n")
}

/// Adds what `inner` writes: the names of two trees, and their inner product.
pub fn add_inner(
    text: &mut Text,
    left: &[u8],
    right: &[u8],
    product: i128,
) -> Result<(), OutOfMemory>
    ensures { OnOk result (text.new
        ≡ text.old ++ (codes "inner " ++ left.now ++ codes " " ++ right.now ++ codes " " ++ signed_decimal product ++ codes "\n")) }
{
    text.add(b"inner ")?;
    text.add(left)?;
    text.add(b" ")?;
    text.add(right)?;
    text.add(b" ")?;
    add_wide(text, product)?;
    text.add(b"\n")
}
