// What is listed of a small board, and of a file that is none.
use crate::printing::{list, write_listed};
use std::test::Fail;

// One device, a, in a register.
const ONE_DEVICE: [u8; 32] = *b"\
    a\0\0\0\0\0\0\0\xff\0\0\0\x00\x00\x00\x00\
    SLPB\x01\x01\x00\x00\x00\x00\0\0\x10\x00\x00\x00";

#[test]
fn a_board_is_listed(rt: HostRuntime) -> Result<(), Fail> {
    let mut written = Vec::new(rt.alloc());
    write_listed(&list(rt.alloc(), &ONE_DEVICE), &mut written)?;
    assert!(rt; written.as_slice() == b"a\n".as_slice());
    Ok(())
}

#[test]
fn a_refusal_is_told_by_its_line(rt: HostRuntime) -> Result<(), Fail> {
    let mut written = Vec::new(rt.alloc());
    write_listed(&list(rt.alloc(), &ONE_DEVICE[1..]), &mut written)?;
    assert!(rt; written.as_slice() == b"! 3 4 15\n".as_slice());
    Ok(())
}
