// The worked cases: board files, calls of banks and of engines, whole runs, what-ifs, lines and numbers, and what is to come of
// each.
#![tactic(auto)]

ghost use Rattle.std.specs.Prelude.{◌≡◌, ◌<◌, ◌≤◌, [], length, MatchOption, slice_index_or};
ghost use Rattle.cases.specs.Cases.{AllHold, AllChecked, AllPrinted, boards};

// clk, i2c and lcd: read with the order 0, 1, 2.
const THREE_DEVICES: [u8; 68] = *b"\
    clk\0\0\0\0\0\xff\0\0\0\xc3\xb2\xa1\x21\
    i2c\0\0\0\0\0\xff\0\0\0\x00\x00\x00\x00\
    lcd\0\0\0\0\0\x01\0\0\0\x00\x05\x00\x00\
    \x01\x00\0\0\
    SLPB\x01\x01\x02\x00\x01\x00\0\0\x34\x00\x04\x00";

// 0 is a consumer of 3, and 2 has the parent 0: read with the order 1, 3, 0, 2.
const FOUR_DEVICES: [u8; 84] = *b"\
    a\0\0\0\0\0\0\0\xff\0\0\0\x00\x00\x00\x00\
    b\0\0\0\0\0\0\0\xff\0\0\0\x00\x00\x00\x00\
    c\0\0\0\0\0\0\0\x00\0\0\0\x00\x00\x00\x00\
    d\0\0\0\0\0\0\0\xff\0\0\0\x00\x00\x00\x00\
    \x00\x03\0\0\
    SLPB\x01\x04\x00\x00\x01\x00\0\0\x44\x00\x04\x00";

// The last byte of the trailer is missing: refused with 1.
const SHORT: [u8; 15] = *b"\
    SLPB\x01\x01\x00\x00\x00\x00\0\0\x10\x00\x00";

// The edition is 2: refused with 2.
const LATER_EDITION: [u8; 32] = *b"\
    a\0\0\0\0\0\0\0\xff\0\0\0\x00\x00\x00\x00\
    SLPB\x02\x01\x00\x00\x00\x00\0\0\x10\x00\x00\x00";

// No devices are counted: refused with 3.
const NO_DEVICES: [u8; 32] = *b"\
    a\0\0\0\0\0\0\0\xff\0\0\0\x00\x00\x00\x00\
    SLPB\x01\x00\x00\x00\x00\x00\0\0\x10\x00\x00\x00";

// The device table has 15 bytes before the trailer: refused with 4.
const NEAR_TABLE: [u8; 32] = *b"\
    a\0\0\0\0\0\0\0\xff\0\0\0\x00\x00\x00\x00\
    SLPB\x01\x01\x00\x00\x00\x00\0\0\x0f\x00\x00\x00";

// Both devices are called a: refused with 5, at the second record.
const SAME_NAMES: [u8; 48] = *b"\
    a\0\0\0\0\0\0\0\xff\0\0\0\x00\x00\x00\x00\
    a\0\0\0\0\0\0\0\xff\0\0\0\x00\x00\x00\x00\
    SLPB\x01\x02\x00\x00\x00\x00\0\0\x20\x00\x00\x00";

// Device 1 is a consumer of itself: refused with 6, at the link's record.
const SELF_LINK: [u8; 52] = *b"\
    a\0\0\0\0\0\0\0\xff\0\0\0\x00\x00\x00\x00\
    b\0\0\0\0\0\0\0\xff\0\0\0\x00\x00\x00\x00\
    \x01\x01\0\0\
    SLPB\x01\x02\x00\x00\x01\x00\0\0\x24\x00\x04\x00";

// 1 and 2 are consumers of each other, and 0 is a consumer of 2: refused with 7, at device 0.
const CIRCLE: [u8; 76] = *b"\
    a\0\0\0\0\0\0\0\xff\0\0\0\x00\x00\x00\x00\
    b\0\0\0\0\0\0\0\xff\0\0\0\x00\x00\x00\x00\
    c\0\0\0\0\0\0\0\xff\0\0\0\x00\x00\x00\x00\
    \x01\x02\0\0\
    \x02\x01\0\0\
    \x00\x02\0\0\
    SLPB\x01\x03\x00\x00\x03\x00\0\0\x3c\x00\x0c\x00";

// The board file of each case.
const BOARDS: [&[u8]; 9] = [
    &THREE_DEVICES,
    &FOUR_DEVICES,
    &SHORT,
    &LATER_EDITION,
    &NO_DEVICES,
    &NEAR_TABLE,
    &SAME_NAMES,
    &SELF_LINK,
    &CIRCLE,
];

// The board file of a worked case. That the cases hold is proved of every answer that the contract of the reader allows, of
// every answer that the contract of the check without memory allows, of every answer that the contract of `list` allows, and of
// those with calls of banks or engines, runs or what-ifs of every answer that the contracts of `register_answers`,
// `board_answers`, `run_session`, `run` and `what_if` allow.
pub fn worked_board(case: usize) -> Option<&'static [u8]>
    ensures bytes { MatchOption result (length boards ≤ «case») (λ bytes. («case» < length boards) × (bytes.now ≡ slice_index_or boards «case» [])) }
    ensures hold { AllHold }
    ensures checked { AllChecked }
    ensures printed { AllPrinted }
{
    BOARDS.get(case).copied()
}

#[cfg(test)]
mod bank_tests;
#[cfg(test)]
mod engine_tests;
#[cfg(test)]
mod run_tests;
#[cfg(test)]
mod tests;
