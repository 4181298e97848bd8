//! The rows of a receipt.
use event_lists::{Row, Rows};

const EMPTY: Row = Row {
    sent: 0,
    handled: 0,
    tasks: 0,
};

#[test]
fn at_most_sixteen_rows_are_kept_in_order(rt: HostRuntime) {
    let mut rows = [EMPTY; 17];
    for (i, row) in rows.iter_mut().enumerate() {
        row.sent = i as u64;
    }
    for (count, expected) in [(0usize, true), (1, true), (16, true), (17, false)] {
        let kept = Rows::of(&rows[..count]);
        assert_eq!(rt; kept.is_some(), expected, "{count} rows");
    }
    if let Some(kept) = Rows::of(&rows[..3]) {
        assert_eq!(rt; kept.len(), 3);
        assert_eq!(rt; kept.get(2), Some(rows[2]));
        assert_eq!(rt; kept.get(3), None);
        assert_eq!(rt; kept.rows().len(), 3);
    }
}
