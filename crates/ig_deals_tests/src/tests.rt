use ig_base::Items;
use ig_caches::Pair;
use ig_deals::*;
use ig_value::Value;
use std::alloc::{AllocError, Global};
use std::test::Fail;

/// Rows of which each has its number as key and value, from 1 on.
fn numbered_rows(alloc: Global, count: i32) -> Result<Items<Pair>, AllocError> {
    let mut rows = Vec::new(alloc);
    for number in 1..=count {
        rows.push(Pair {
            key: Value::Int(number),
            value: Value::Int(number),
        })?;
    }
    Ok(Items::new(rows))
}

#[test]
fn cursors_are_taken_by_number(rt: HostRuntime) -> Result<(), Fail> {
    let alloc = rt.alloc();
    let mut desk = Desk::new(alloc)?;
    let number = desk.next_number();
    desk.draw();
    let rows = numbered_rows(alloc, 5)?;
    desk.open(OpenCursor::new(number, 2, rows));
    assert!(rt; !desk.is_full());
    assert!(rt; desk.take(2).is_none());
    let Some(mut cursor) = desk.take(1) else {
        assert!(rt; false);
        return Ok(());
    };
    assert!(rt; desk.take(1).is_none());
    let more = cursor.has_more();
    let first = cursor.take_page()?.as_slice().len();
    cursor.take_page()?;
    let ended = !cursor.has_more();
    let last = cursor.take_page()?.as_slice().len();
    assert_eq!(rt; (number, first, more, last, ended), (1, 2, true, 1, true));
    Ok(())
}

#[test]
fn pages_are_taken_by_number(rt: HostRuntime) -> Result<(), Fail> {
    let alloc = rt.alloc();
    let mut desk = Desk::new(alloc)?;
    let rows = numbered_rows(alloc, 3)?;
    desk.open(OpenCursor::new(1, 2, rows));
    assert!(rt; desk.take_page(2)?.is_none());
    let Some((page, cursor)) = desk.take_page(1)? else {
        assert!(rt; false);
        return Ok(());
    };
    assert!(rt; desk.take(1).is_none());
    let shown = (page.cursor, page.rows.as_slice().len(), page.more);
    assert_eq!(rt; shown, (None, 2, true));
    assert_eq!(rt; (cursor.number(), cursor.has_more()), (1, false));
    Ok(())
}
