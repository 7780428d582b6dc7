// The worked boards, read by the running reader, and orders of tables that no file describes.
use crate::worked_board;
use board::board::Board;
use board::file::read_file;
use boardfile::fault::{BoardFault, ReadFault};
use order::ordering::Circle;
use order::superiors::{NoDevice, Superiors};
use std::test::Fail;

#[test]
fn three_devices_are_read(rt: HostRuntime) -> Result<(), Fail> {
    let file = worked_board(0).ok_or("no such case")?;
    let board = Board::read(rt.alloc(), file)?;
    let devices = board.devices();
    assert!(rt; devices.len() == 3);
    assert!(rt; devices[0].name.as_bytes() == b"clk".as_slice());
    assert!(rt; devices[0].word == 0x21a1_b2c3);
    assert!(rt; devices[2].name.as_bytes() == b"lcd".as_slice());
    assert!(rt; devices[2].parent == Some(1));
    assert!(rt; board.links().len() == 1);
    assert!(rt; board.kinds().bus == 2);
    assert!(rt; board.order().devices() == [0, 1, 2].as_slice());
    Ok(())
}

#[test]
fn four_devices_are_ordered(rt: HostRuntime) -> Result<(), Fail> {
    let file = worked_board(1).ok_or("no such case")?;
    let order = Board::check(file)?;
    assert!(rt; order.devices() == [1, 3, 0, 2].as_slice());
    Ok(())
}

#[test]
fn a_circle_is_refused(rt: HostRuntime) -> Result<(), Fail> {
    let file = worked_board(8).ok_or("no such case")?;
    let fault = BoardFault::Circle { device: 0 };
    assert_eq!(rt;
        Board::read(rt.alloc(), file).err(),
        Some(ReadFault::Board { fault })
    );
    Ok(())
}

#[test]
fn tables_have_1_to_64_devices(rt: HostRuntime) {
    assert!(rt; Superiors::new(0).is_none());
    assert!(rt; Superiors::new(64).is_some());
    assert!(rt; Superiors::new(65).is_none());
}

#[test]
fn the_longest_chain_is_turned_round(rt: HostRuntime) -> Result<(), Fail> {
    let mut table = Superiors::new(64).ok_or("no table")?;
    for d in 0..63 {
        assert!(rt; table.add(d + 1, d).is_ok());
    }
    assert_eq!(rt; table.add(64, 0), Err(NoDevice { number: 64 }));
    let order = table.order().ok().ok_or("no order")?;
    assert!(rt; order.devices().len() == 64);
    assert!(rt; order.devices()[0] == 63);
    assert!(rt; order.devices()[63] == 0);
    Ok(())
}

#[test]
fn the_device_below_a_circle_is_named(rt: HostRuntime) -> Result<(), Fail> {
    let mut table = Superiors::new(5).ok_or("no table")?;
    assert!(rt; table.add(3, 4).is_ok());
    assert!(rt; table.add(4, 3).is_ok());
    assert!(rt; table.add(4, 1).is_ok());
    assert_eq!(rt; table.order().err(), Some(Circle { device: 1 }));
    Ok(())
}

#[test]
fn a_file_is_not_cut_to_the_limit(rt: HostRuntime) -> Result<(), Fail> {
    let long = [0; 4_200];
    assert!(rt; read_file(rt.alloc(), &long[..4_096])?.len() == 4_096);
    assert!(rt; read_file(rt.alloc(), &long[..4_097])?.len() == 4_097);
    assert!(rt; read_file(rt.alloc(), long.as_slice())?.len() == 4_097);
    Ok(())
}
