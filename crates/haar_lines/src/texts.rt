//! The texts of lines.
ghost use Rattle.std.specs.Prelude.{◌≡◌, ◌++◌, IfOk, OnOk, codes, decimal};
ghost use Rattle.std.specs.Fmt.{signed_decimal};
ghost use Rattle.haar_lines.specs.Texts.{key_line};

use app_core::OutOfMemory;
use itoa::Buffer;
use std::alloc::Global;
use tree_key::{Key, Text};

/// Adds a number.
pub fn add_unsigned(text: &mut Text, number: u64) -> Result<(), OutOfMemory>
    ensures { OnOk result (text.new ≡ text.old ++ decimal number) }
{
    let mut buffer = Buffer::new();
    text.add(buffer.format(number).as_bytes())
}

/// Adds a number with its sign.
pub fn add_signed(text: &mut Text, number: i64) -> Result<(), OutOfMemory>
    ensures { OnOk result (text.new ≡ text.old ++ signed_decimal number) }
{
    let mut buffer = Buffer::new();
    text.add(buffer.format(number).as_bytes())
}

/// Adds a long number with its sign.
pub fn add_wide(text: &mut Text, number: i128) -> Result<(), OutOfMemory>
    ensures { OnOk result (text.new ≡ text.old ++ signed_decimal number) }
{
    let mut buffer = Buffer::new();
    text.add(buffer.format(number).as_bytes())
}

/// The line of a key: its level, its place on the level, and a number.
pub fn key_line(alloc: Global, key: Key, number: i64) -> Result<Text, OutOfMemory>
    ensures { IfOk result (λ text. text ≡ key_line key number) }
{
    let mut text = Text::new(alloc);
    add_unsigned(&mut text, u64::from(key.level()))?;
    text.add(b" ")?;
    add_unsigned(&mut text, u64::from(key.at()))?;
    text.add(b" ")?;
    add_signed(&mut text, number)?;
    text.add(b"\n")?;
    Ok(text)
}

// The words that name a tree.
fn tree_name(alloc: Global, name: &[u8]) -> Result<Text, OutOfMemory>
    ensures { IfOk result (λ text. text ≡ codes "tree " ++ name.now) }
{
    let mut text = Text::new(alloc);
    text.add(b"tree ")?;
    text.add(name)?;
    Ok(text)
}

/// The line that names a reconstructed tree.
pub fn reconstructed_heading(alloc: Global, name: &[u8]) -> Result<Text, OutOfMemory>
    ensures { IfOk result (λ text. text ≡ codes "tree " ++ name.now ++ codes " reconstructed\n") }
{
    let mut text = tree_name(alloc, name)?;
    text.add(b" reconstructed\n")?;
    Ok(text)
}

/// The line that names a compressed tree and has its sum.
pub fn compressed_heading(alloc: Global, name: &[u8], sum: i64) -> Result<Text, OutOfMemory>
    ensures { IfOk result (λ text. text ≡ codes "tree " ++ name.now ++ codes " compressed " ++ signed_decimal sum ++ codes "\n") }
{
    let mut text = tree_name(alloc, name)?;
    text.add(b" compressed ")?;
    add_signed(&mut text, sum)?;
    text.add(b"\n")?;
    Ok(text)
}

/// The line of an inner product.
pub fn inner_line(
    alloc: Global,
    left: &[u8],
    right: &[u8],
    product: i128,
) -> Result<Text, OutOfMemory>
    ensures { IfOk result (λ text. text ≡ codes "inner " ++ left.now ++ codes " " ++ right.now ++ codes " " ++ signed_decimal product ++ codes "\n") }
{
    let mut text = Text::new(alloc);
    text.add(b"inner ")?;
    text.add(left)?;
    text.add(b" ")?;
    text.add(right)?;
    text.add(b" ")?;
    add_wide(&mut text, product)?;
    text.add(b"\n")?;
    Ok(text)
}

/// The line of a size.
pub fn size_line(alloc: Global, name: &[u8], count: u64) -> Result<Text, OutOfMemory>
    ensures { IfOk result (λ text. text ≡ codes "size " ++ name.now ++ codes " " ++ decimal count ++ codes "\n") }
{
    let mut text = Text::new(alloc);
    text.add(b"size ")?;
    text.add(name)?;
    text.add(b" ")?;
    add_unsigned(&mut text, count)?;
    text.add(b"\n")?;
    Ok(text)
}
