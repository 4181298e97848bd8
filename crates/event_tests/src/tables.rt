//! A table at one type, through its bound.
use event_tables::Table;
use std::test::Fail;

// No clause can say that memory is left, so a table that never has room would meet those of `touch`.
#[test]
fn a_table_has_the_values_that_were_set(rt: HostRuntime) -> Result<(), Fail> {
    let mut table: Table<u32, u64> = Table::new(rt.alloc(), 7);
    table.touch(3)?;
    assert_eq!(rt; (table.get(3), table.get(4)), (7, 7));
    table.set(3, 9);
    table.touch(3)?;
    assert_eq!(rt; (table.get(3), table.get(4)), (9, 7));
    Ok(())
}
