// Items in memory that is taken once, for as many as there may ever be.
use doc::reserved::Reserved;
use std::test::*;

// Four bytes at most: pushed, extended, resized and truncated.
#[test]
fn reserved(rt: HostRuntime) -> Result<(), Fail> {
    let mut row = Reserved::<u8, 4>::new(rt.alloc())?;
    assert_eq!(rt; row.len(), 0);
    row.push(1);
    assert_eq!(rt; row.as_slice(), [1].as_slice());
    row.extend_from_slice(&[2, 3]);
    assert_eq!(rt; row.as_slice(), [1, 2, 3].as_slice());
    // to as many as there may be, and to fewer
    row.resize(4, 9);
    assert_eq!(rt; row.as_slice(), [1, 2, 3, 9].as_slice());
    assert_eq!(rt; row.len(), 4);
    row.resize(3, 9);
    assert_eq!(rt; row.as_slice(), [1, 2, 3].as_slice());
    row.truncate(2);
    assert_eq!(rt; row.as_slice(), [1, 2].as_slice());
    // to more than there are: all stay
    row.truncate(4);
    assert_eq!(rt; row.as_slice(), [1, 2].as_slice());
    row.clear();
    assert_eq!(rt; row.len(), 0);
    Ok(())
}
