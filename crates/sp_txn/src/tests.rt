use crate::sheet::Sheet;
use sp_base::number::{CopyNo, EndpointNo};
use std::test::Fail;

#[test]
fn what_notes_make_of_used_bytes_and_copies(rt: HostRuntime) -> Result<(), Fail> {
    let first = EndpointNo::of(1);
    let second = EndpointNo::of(2);
    let mut sheet = Sheet::new(rt.alloc());
    sheet.reserve(5)?;
    sheet.add(first, 100);
    sheet.add(second, 50);
    sheet.take(first, 130);
    sheet.close(CopyNo::of(7));
    sheet.add(first, 5);
    assert_eq!(rt; sheet.used(first, 40), 15);
    assert_eq!(rt; sheet.used(second, 0), 50);
    assert_eq!(rt; sheet.used(EndpointNo::of(3), 8), 8);
    assert_eq!(rt; sheet.all(1000), 1025);
    for (copy, closed) in [(6, false), (7, true), (8, false)] {
        assert_eq!(rt; sheet.closed(CopyNo::of(copy)), closed);
    }
    Ok(())
}
