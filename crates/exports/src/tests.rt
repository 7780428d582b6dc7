// The exported calls, called as functions on the board of clk, i2c and lcd.
use crate::runs::{fuldrik_run, fuldrik_what_if};
use crate::{fuldrik_board_order, fuldrik_refusal_number, fuldrik_refusal_place};

// lcd has the parent i2c, and i2c is a consumer of clk.
const THREE_DEVICES: [u8; 68] = *b"\
    clk\0\0\0\0\0\xff\0\0\0\xc3\xb2\xa1\x21\
    i2c\0\0\0\0\0\xff\0\0\0\x00\x00\x00\x00\
    lcd\0\0\0\0\0\x01\0\0\0\x00\x05\x00\x00\
    \x01\x00\0\0\
    SLPB\x01\x01\x02\x00\x01\x00\0\0\x34\x00\x04\x00";

// Both devices are called a: refused with 5, at the second record.
const SAME_NAMES: [u8; 48] = *b"\
    a\0\0\0\0\0\0\0\xff\0\0\0\x00\x00\x00\x00\
    a\0\0\0\0\0\0\0\xff\0\0\0\x00\x00\x00\x00\
    SLPB\x01\x02\x00\x00\x00\x00\0\0\x20\x00\x00\x00";

// 1 and 2 are consumers of each other, and 0 is a consumer of 2: refused with 7, at device 0.
const CIRCLE: [u8; 76] = *b"\
    a\0\0\0\0\0\0\0\xff\0\0\0\x00\x00\x00\x00\
    b\0\0\0\0\0\0\0\xff\0\0\0\x00\x00\x00\x00\
    c\0\0\0\0\0\0\0\xff\0\0\0\x00\x00\x00\x00\
    \x01\x02\0\0\
    \x02\x01\0\0\
    \x00\x02\0\0\
    SLPB\x01\x03\x00\x00\x03\x00\0\0\x3c\x00\x0c\x00";

// i2c, device 1, is hindered by 110 on its way into level 2.
const I2C_REFUSES: [u8; 12] = [0, 0, 0, 0, 0, 110, 0, 0, 0, 0, 0, 0];

// What stands where nothing is written.
const UNTOUCHED: [u16; 6] = [777; 6];

#[test]
fn an_order_goes_to_the_front(rt: HostRuntime) {
    let mut places = [9; 4];
    assert!(rt; fuldrik_board_order(&THREE_DEVICES, &mut places) == 3);
    assert!(rt; places == [0, 1, 2, 9]);
    let mut places = [9; 4];
    assert!(rt; fuldrik_board_order(&THREE_DEVICES, &mut places[..2]) == 0);
    assert!(rt; fuldrik_board_order(&CIRCLE, &mut places) == 0);
    assert!(rt; places == [9; 4]);
}

#[test]
fn a_refusal_has_a_number_and_a_place(rt: HostRuntime) {
    assert!(rt; fuldrik_refusal_number(&SAME_NAMES) == 5);
    assert!(rt; fuldrik_refusal_place(&SAME_NAMES) == 16);
    assert!(rt; fuldrik_refusal_number(&THREE_DEVICES) == 0);
    assert!(rt; fuldrik_refusal_place(&THREE_DEVICES) == 0);
}

#[test]
fn a_run_is_five_numbers(rt: HostRuntime) {
    let mut values = UNTOUCHED;
    let answer = fuldrik_run(rt.alloc(), &THREE_DEVICES, &I2C_REFUSES, &mut values);
    assert!(rt; answer == 0);
    assert!(rt; values == [1, 110, 1, 2, 4, 777]);
}

#[test]
fn a_run_that_is_refused_writes_nothing(rt: HostRuntime) {
    let mut values = UNTOUCHED;
    let answer = fuldrik_run(rt.alloc(), &CIRCLE, &I2C_REFUSES, &mut values[..4]);
    assert!(rt; answer == 254);
    let answer = fuldrik_run(rt.alloc(), &CIRCLE, &I2C_REFUSES, &mut values);
    assert!(rt; answer == 7);
    let answer = fuldrik_run(rt.alloc(), &THREE_DEVICES, &I2C_REFUSES[1..], &mut values);
    assert!(rt; answer == 8);
    assert!(rt; values == UNTOUCHED);
}

#[test]
fn a_what_if_leaves_the_sheet(rt: HostRuntime) {
    let mut sheet = I2C_REFUSES;
    let mut values = UNTOUCHED;
    let heap = rt.alloc();
    let answer = fuldrik_what_if(heap, &THREE_DEVICES, &mut sheet, 1, 2, 0, &mut values);
    assert!(rt; answer == 0);
    assert!(rt; values == [0, 0, 255, 0, 12, 777]);
    assert!(rt; sheet == I2C_REFUSES);
    let answer = fuldrik_what_if(heap, &THREE_DEVICES, &mut sheet, 2, 1, 7, &mut values);
    assert!(rt; answer == 0);
    assert!(rt; values == [1, 7, 2, 1, 2, 777]);
    assert!(rt; sheet == I2C_REFUSES);
}

#[test]
fn a_what_if_that_is_refused_writes_nothing(rt: HostRuntime) {
    let mut sheet = I2C_REFUSES;
    let mut values = UNTOUCHED;
    let heap = rt.alloc();
    let answer = fuldrik_what_if(heap, &THREE_DEVICES, &mut sheet, 3, 0, 7, &mut values);
    assert!(rt; answer == 12);
    let answer = fuldrik_what_if(heap, &THREE_DEVICES, &mut sheet, 2, 5, 7, &mut values);
    assert!(rt; answer == 13);
    assert!(rt; sheet == I2C_REFUSES);
    assert!(rt; values == UNTOUCHED);
}
