//! The rows of some ranks in a pass of a fence.
ghost use Rattle.std.specs.Prelude.{◌≡◌, ◌↔◌, true, ℕ, ◌<◌, ◌≤◌, None, Some, slice_get, slice_set, length};
ghost use Rattle.event_lists.specs.declared.receipt.Row.{Row as RowData};
ghost use Rattle.fence_tree.specs.Rows.{row_at, row_or, no_rows, sums_of};
ghost use Rattle.fence_tree.specs.Verdicts.{AreEqual};

use event_lists::{Row, Rows};
use std::marker::Model;

/// The rows of some ranks in a pass, by rank. Contracts see the list of them, none where a rank has no row.
#[derive(Debug, Drop)]
pub struct KnownRows {
    rows: [Option<Row>; 16],
}

impl Model for KnownRows {
    ghost use Rattle.std.specs.Prelude.{◌≡◌, List, Option, length};
    ghost use Rattle.event_lists.specs.declared.receipt.Row.{Row};

    ghost Value = { List (Option Row) };

    ghost view = { λ k. k.rows };

    ghost invariant = { λ k. length k.rows ≡ 16 };
}

/// What all ranks sent and handled, as they read it in a pass.
///
/// Each count is a 64-bit number; their sums have room for more.
#[derive(Clone, Copy, Debug, PartialEq, Eq)]
pub struct Sums {
    pub sent: u128,
    pub handled: u128,
}

impl Sums {
    /// Whether a pass with these sums and a next one with those agree: the four numbers are equal.
    pub fn agree(&self, next: &Sums) -> bool
        ensures { (result ≡ true) ↔ AreEqual self.now next.now }
    {
        self.sent == self.handled && next.sent == self.sent && next.handled == self.handled
    }
}

impl KnownRows {
    /// No rows.
    pub fn none() -> KnownRows
        ensures { result ≡ no_rows }
    {
        KnownRows { rows: [None; 16] }
    }

    /// The row of a rank, where there is one.
    pub fn get(&self, rank: u32) -> Option<Row>
        requires { rank < 16 }
        ensures { result ≡ row_at self.now rank }
    {
        self.rows[rank as usize]
    }

    /// The row of this rank is known.
    pub fn set(&mut self, rank: u32, row: Row)
        requires { rank < 16 }
        ensures own { row_at self.new rank ≡ Some row }
        ensures others { (q : ℕ) → (q ≡ rank → ⊥) → row_at self.new q ≡ row_at self.old q }
    {
        self.rows[rank as usize] = Some(row);
    }

    /// The rows of others are known, too.
    pub fn add(&mut self, others: &KnownRows)
        ensures { (q : ℕ) → row_at self.new q ≡ row_or (row_at others.now q) (row_at self.old q) }
    {
        let _ = &others.rows;
        for rank in 0..16u32 {
            if let Some(row) = others.get(rank) {
                self.set(rank, row);
            }
        }
    }

    /// The sums over the ranks below this number.
    pub fn sums(&self, ranks: u32) -> Sums
        requires { ranks ≤ 16 }
        ensures { result ≡ sums_of self.now ranks }
    {
        let mut sent = 0u128;
        let mut handled = 0u128;
        for rank in 0..ranks {
            if let Some(row) = self.get(rank) {
                sent += u128::from(row.sent);
                handled += u128::from(row.handled);
            }
        }
        Sums { sent, handled }
    }

    /// The rows of the ranks below this number, which are all known.
    pub fn all(&self, ranks: u32) -> Rows
        requires ranks { ranks ≤ 16 }
        requires known { (q : ℕ) → q < ranks → (row : RowData) × (row_at self.now q ≡ Some row) }
        ensures length { length result ≡ ranks }
        ensures rows { (q : ℕ) → q < ranks → slice_get result q ≡ row_at self.now q }
    {
        let mut rows = [Row {
            sent: 0,
            handled: 0,
            tasks: 0,
        }; 16];
        for rank in 0..ranks {
            let Some(row) = self.get(rank) else {
                unreachable!()
            };
            rows[rank as usize] = row;
        }
        let Some(kept) = Rows::of(&rows[..ranks as usize]) else {
            unreachable!()
        };
        kept
    }
}
