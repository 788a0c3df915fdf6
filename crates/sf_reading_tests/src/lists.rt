//! Names and lists: each call that allocates succeeds where there is ample memory.

use sf_base::{Counted, Name, Sequence};
use std::test::Fail;

#[test]
fn a_name_keeps_its_bytes(rt: HostRuntime) -> Result<(), Fail> {
    let name = Name::new(rt.alloc(), b"list_head'")?;
    assert_eq!(rt; name.as_bytes(), b"list_head'".as_slice());
    Ok(())
}

#[test]
fn a_sequence_grows(rt: HostRuntime) -> Result<(), Fail> {
    let mut numbers = Sequence::new(rt.alloc());
    numbers.push(7u32)?;
    numbers.push(3)?;
    numbers.push(7)?;
    assert_eq!(rt; numbers.len(), 3);
    assert_eq!(rt; numbers.as_slice(), [7, 3, 7].as_slice());
    Ok(())
}

#[test]
fn a_counted_list_grows(rt: HostRuntime) -> Result<(), Fail> {
    let mut numbers = Counted::new(rt.alloc());
    numbers.push(7u32)?;
    numbers.push(3)?;
    assert_eq!(rt; numbers.len(), 2);
    assert_eq!(rt; numbers.into_vec().as_slice(), [7, 3].as_slice());
    Ok(())
}
