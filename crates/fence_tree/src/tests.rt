//! Cells and rows by hand.
use crate::{CellState, FenceCells, KnownRows, Sums};
use event_lists::Row;
use std::marker::Brand;
use std::test::Fail;

#[test]
fn a_cell_has_one_item(rt: HostRuntime) -> Result<(), Fail> {
    let mut cell = CellState::new();
    assert_eq!(rt; cell.put(1u8), None);
    assert_eq!(rt; cell.put(2), Some(2));
    assert_eq!(rt; cell.take(), Some(1));
    assert_eq!(rt; cell.take(), None);
    Ok(())
}

#[test]
fn new_cells_are_empty(rt: HostRuntime) -> Result<(), Fail> {
    let cells: FenceCells<(), Brand> = FenceCells::new(rt.alloc(), 3)?;
    assert!(rt; cells.take_report(&rt, 2, 1, 1).is_none());
    assert!(rt; cells.take_announcement(&rt, 1, 0, 1, 1).is_none());
    Ok(())
}

const FIRST: Row = Row {
    sent: u64::MAX,
    handled: 2,
    tasks: 3,
};

const SECOND: Row = Row {
    sent: u64::MAX,
    handled: 5,
    tasks: 6,
};

#[test]
fn rows_are_put_together(rt: HostRuntime) -> Result<(), Fail> {
    let mut rows = KnownRows::none();
    rows.set(0, FIRST);
    let mut others = KnownRows::none();
    others.set(1, SECOND);
    rows.add(&others);
    assert_eq!(rt;
        (rows.get(0), rows.get(1), rows.get(2)),
        (Some(FIRST), Some(SECOND), None)
    );
    let sums = Sums {
        sent: 2 * u128::from(u64::MAX),
        handled: 7,
    };
    assert_eq!(rt; rows.sums(2), sums);
    assert_eq!(rt; rows.all(2).rows(), [FIRST, SECOND].as_slice());
    Ok(())
}
