//! A cell for one item.
ghost use Rattle.std.specs.Prelude.{◌≡◌, ◌↔◌, None, Some, IsNone};

use std::marker::Model;

/// A cell that is empty or has one item. Contracts see the item, if there is one.
///
/// An item that comes out is one that was put, so it has whatever the type of the items states.
#[derive(Drop)]
pub struct CellState<T> {
    item: Option<T>,
}

impl<T> Model for CellState<T> {
    ghost use Rattle.std.specs.Prelude.{Option};

    ghost Value = { Option T };

    ghost view = { λ c. c.item };
}

impl<T: Drop> CellState<T> {
    /// An empty cell.
    pub fn new() -> CellState<T>
        ensures { result ≡ None }
    {
        CellState { item: None }
    }

    /// Puts the item into an empty cell. Where the cell isn't empty, it stays as it was and the item comes back.
    pub fn put(&mut self, item: T) -> Option<T>
        ensures empty { self.old ≡ None → (result ≡ None) × (self.new ≡ Some item) }
        ensures full { (other : T) → self.old ≡ Some other → (result ≡ Some item) × (self.new ≡ Some other) }
    {
        if self.item.is_some() {
            return Some(item);
        }
        self.item = Some(item);
        None
    }

    /// Takes the item out. None exactly where the cell is empty.
    pub fn take(&mut self) -> Option<T>
        ensures item { result ≡ self.old }
        ensures empty { self.new ≡ None }
    {
        self.item.take()
    }
}
