//! Rows and tables of truth values.
use bit_rows::{BitRow, BitTable, count};
use std::test::Fail;

#[test]
fn rows_and_tables_hold_what_is_set(rt: HostRuntime) -> Result<(), Fail> {
    let alloc = rt.alloc();
    let mut row = BitRow::make(alloc, 70)?;
    row.set(3);
    row.set(64);
    row.set(69);
    row.clear(64);
    assert_eq!(rt; [row.width(), count(&row)], [70, 2]);
    let mut table = BitTable::make(alloc, 2, 70)?;
    table.set(0, 3);
    table.set(1, 69);
    table.set(1, 5);
    table.clear(1, 5);
    assert_eq!(rt; [table.get(1, 69), table.get(1, 5)], [true, false]);
    assert_eq!(rt;
        [table.and_any(0, &row), table.equal(0, 1, &row)],
        [true, false]
    );
    table.and_into(1, &mut row);
    assert_eq!(rt; count(&row), 1);
    Ok(())
}
