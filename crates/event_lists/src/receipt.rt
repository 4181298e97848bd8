//! What a fence leaves: a receipt with a row for each rank.
ghost use Rattle.std.specs.Prelude.{◌≡◌, ◌≤◌, length, slice_get, IsSome, IfSome, ◌↔◌};
ghost use Rattle.event_lists.specs.Rows.{max_ranks};

use std::marker::Model;

/// What one rank read in the last pass of a fence: its messages sent, its handlings, and its tasks, submitted and run.
#[derive(Clone, Copy, Debug, PartialEq, Eq)]
pub struct Row {
    pub sent: u64,
    pub handled: u64,
    pub tasks: u64,
}

const EMPTY: Row = Row {
    sent: 0,
    handled: 0,
    tasks: 0,
};

/// The rows of a receipt, in order of ranks: at most 16.
///
/// They are small plain data, so that events, which have them, can be copied.
#[derive(Clone, Copy, Debug, PartialEq, Eq)]
pub struct Rows {
    rows: [Row; 16],
    count: u8,
}

impl Model for Rows {
    ghost use Rattle.std.specs.Prelude.{List, take, replicate, ◌++◌, ◌-◌, length};
    ghost use Rattle.event_lists.specs.declared.receipt.Row.{Row};
    ghost use Rattle.event_lists.specs.Rows.{AreRows, no_row};

    ghost Value = { List Row };

    ghost view = { λ r. take r.count r.rows };

    ghost invariant = { λ r. AreRows r.rows r.count };

    ghost inverse = { λ xs. record { rows = xs ++ replicate (16 - length xs) no_row; count = length xs } };

    ghost use Rattle.event_lists.specs.RowsLaws.{back};

    ghost inverse_ok = { back };
}

impl Rows {
    /// These rows. None exactly where there are more than 16.
    pub fn of(rows: &[Row]) -> Option<Rows>
        ensures some { IsSome result ↔ (length rows.now ≤ max_ranks) }
        ensures rows { IfSome result (λ r. r ≡ rows.now) }
    {
        if rows.len() > 16 {
            return None;
        }
        let mut kept = [EMPTY; 16];
        kept[..rows.len()].copy_from_slice(rows);
        Some(Rows {
            rows: kept,
            count: rows.len() as u8,
        })
    }

    /// How many there are, at most 16.
    pub fn len(&self) -> usize
        ensures len { result ≡ length self.now }
        ensures within { result ≤ max_ranks }
    {
        usize::from(self.count)
    }

    /// The row of a rank. None exactly past the last.
    pub fn get(&self, rank: usize) -> Option<Row>
        ensures { result ≡ slice_get self.now rank }
    {
        if rank < usize::from(self.count) {
            Some(self.rows[rank])
        } else {
            None
        }
    }

    /// All rows, in order of ranks.
    pub fn rows(&self) -> &[Row]
        ensures { result.now ≡ self.now }
    {
        &self.rows[..usize::from(self.count)]
    }
}

/// The receipt of a fence: its number, from 1, the number of its last pass, and a row for each rank.
#[derive(Clone, Copy, Debug, PartialEq, Eq)]
pub struct Receipt {
    pub fence: u32,
    pub pass: u64,
    pub rows: Rows,
}
