//! The lines of keys, row by row.
ghost use Rattle.std.specs.Prelude.{◌≡◌, [], ◌∷◌, IfOk, OnOk};
ghost use Rattle.std.specs.List.{flat_map};
ghost use Rattle.haar_lines.specs.Rows.{beside, row_put, joined_rows};

use app_core::OutOfMemory;
use std::alloc::Global;
use std::collections::{LinkedList, VecDeque};
use std::marker::Model;
use tree_key::Text;

/// The lines of one level's keys, from left to right, as pieces.
type Row = LinkedList<Text>;

/// The lines of a key and of the keys below it: one row for each level, from the key's own down. At the root of a tree a
/// row with the line that names it comes first. Contracts see the bytes of each row.
///
/// The bytes stay where they were made until [`Lines::text`] joins them: to put rows side by side moves no byte.
#[derive(Drop)]
pub struct Lines {
    rows: Vec<Row>,
}

impl Model for Lines {
    ghost use Rattle.std.specs.Prelude.{List, ℕ, map};
    ghost use Rattle.haar_lines.specs.Rows.{row_bytes};

    ghost Value = { List (List ℕ) };

    ghost view = { λ l. map row_bytes l.rows.items };
}

// Adds a row of this text before others.
fn add_row(rows: &mut Vec<Row>, alloc: Global, text: Text) -> Result<(), OutOfMemory>
    ensures { OnOk result (rows.new.items ≡ (text ∷ []) ∷ rows.old.items) }
{
    let mut row = LinkedList::new(alloc);
    row.push_back(text)?;
    rows.insert(0, row)?;
    Ok(())
}

// The bytes of a row.
fn add_row_bytes(text: &mut Text, row: &Row) -> Result<(), OutOfMemory>
    ensures { OnOk result (text.new ≡ joined_rows text.old row.now) }
{
    for piece in row.iter() {
        text.add(piece.bytes())?;
    }
    Ok(())
}

// Puts a row behind the one at a place, or after the last row.
fn put_row(rows: &mut Vec<Row>, at: usize, other: Row) -> Result<(), OutOfMemory>
    ensures { OnOk result (rows.new.items ≡ row_put rows.old.items at other) }
{
    let mut other = other;
    if at < rows.len() {
        rows[at].append(&mut other)?;
    } else {
        rows.push(other)?;
    }
    Ok(())
}

// Puts the rows of the second behind those of the first, level by level. No byte moves.
fn put_beside(rows: &mut Vec<Row>, others: Vec<Row>) -> Result<(), OutOfMemory>
    ensures { OnOk result (rows.new.items ≡ beside rows.old.items others.items) }
{
    let mut left = VecDeque::from_vec(others);
    let mut at = 0usize;
    while let Some(other) = left.pop_front() {
        put_row(rows, at, other)?;
        at += 1;
    }
    Ok(())
}

impl Lines {
    /// One row of this text.
    pub fn of_text(alloc: Global, text: Text) -> Result<Lines, OutOfMemory>
        ensures { IfOk result (λ lines. lines ≡ text ∷ []) }
    {
        let mut rows = Vec::new(alloc);
        add_row(&mut rows, alloc, text)?;
        Ok(Lines { rows })
    }

    /// These rows, with one of this text before them.
    pub fn with_row(self, alloc: Global, text: Text) -> Result<Lines, OutOfMemory>
        ensures { IfOk result (λ lines. lines ≡ text ∷ self) }
    {
        let Lines { mut rows } = self;
        add_row(&mut rows, alloc, text)?;
        Ok(Lines { rows })
    }

    /// These rows, with those of another behind them, level by level.
    pub fn with_beside(self, others: Lines) -> Result<Lines, OutOfMemory>
        ensures { IfOk result (λ lines. lines ≡ beside self others) }
    {
        let Lines { mut rows } = self;
        put_beside(&mut rows, others.rows)?;
        Ok(Lines { rows })
    }

    /// All bytes, row by row.
    pub fn text(&self, alloc: Global) -> Result<Text, OutOfMemory>
        ensures { IfOk result (λ text. text ≡ flat_map (λ row. row) self.now) }
    {
        let mut text = Text::new(alloc);
        for row in &self.rows {
            add_row_bytes(&mut text, row)?;
        }
        Ok(text)
    }

    /// The same rows, each in one piece.
    pub fn copy(&self, alloc: Global) -> Result<Lines, OutOfMemory>
        ensures { IfOk result (λ lines. lines ≡ self.now) }
    {
        let mut rows = Vec::new(alloc);
        for row in &self.rows {
            let mut text = Text::new(alloc);
            add_row_bytes(&mut text, row)?;
            let mut copied = LinkedList::new(alloc);
            copied.push_back(text)?;
            rows.push(copied)?;
        }
        Ok(Lines { rows })
    }
}
