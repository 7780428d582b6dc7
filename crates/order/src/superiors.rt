// Which devices each device needs before it: its superiors.
mod making;
mod search;

ghost use Rattle.std.specs.Prelude.{◌≡◌, ◌≤◌, length};
ghost use Rattle.order.specs.Tables.{Known};

use crate::set::DeviceSet;

// A table of 1 to 64 devices, numbered from 0, with the set of superiors of each.
#[derive(Clone, Copy)]
pub struct Superiors {
    count: u8,
    sets: [DeviceSet; 64],
    ghost some: { 1 ≤ count },
    ghost few: { count ≤ 64 },
    ghost long: { length sets ≡ 64 },
    ghost known: { Known count sets },
}

// This number is no device of the table.
#[derive(Clone, Copy, PartialEq, Eq, Debug)]
pub struct NoDevice {
    pub number: u8,
}
