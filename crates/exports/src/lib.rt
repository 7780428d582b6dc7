// The library for callers in C and Rust, over numbers and slices of bytes. A slice goes as a pointer and a length.
#![tactic(auto)]

mod runs;

ghost use Rattle.std.specs.Prelude.{◌≡◌, ◌≤◌, length};
ghost use Rattle.exports.specs.Exports.{Writes, OrderWritten, NumberOf, PlaceOf, Tells};
ghost use Rattle.exports.specs.Worked.{RefusalsWorked};

use board::board::Board;
use refusal::Refusal;

// Copies the devices to the front of `places` and answers how many they are; or none, where there is too little room.
fn write_devices(devices: &[u8], places: &mut [u8]) -> Option<u8>
    requires { length devices.now ≤ 64 }
    ensures { Writes devices.now places.old places.new result }
{
    let n = devices.len();
    if places.len() < n {
        return None;
    }
    places[..n].copy_from_slice(devices);
    Some(n as u8)
}

// The refusal of a board file, or none where it is not refused.
fn refusal_of(file: &[u8]) -> Option<Refusal>
    ensures { Tells file.now result }
{
    Board::check(file).err().map(Refusal::from)
}

// Writes the order of the board that a board file describes to the front of `places`, and answers how many devices it has;
// or answers 0 and writes nothing, where the file is refused or there is too little room.
#[unsafe(no_mangle)]
pub extern "C" fn fuldrik_board_order(file: &[u8], places: &mut [u8]) -> u8
    ensures { OrderWritten file.now places.old places.new result }
{
    match Board::check(file) {
        Ok(order) => write_devices(order.devices(), places).unwrap_or(0),
        Err(_) => 0,
    }
}

// The number of the refusal of a board file, or 0 where it is not refused.
#[unsafe(no_mangle)]
pub extern "C" fn fuldrik_refusal_number(file: &[u8]) -> u8
    ensures number { NumberOf file.now result }
    ensures worked { RefusalsWorked }
{
    refusal_of(file).map_or(0, |refusal| refusal.number)
}

// The place of the refusal of a board file, or 0 where it is not refused.
#[unsafe(no_mangle)]
pub extern "C" fn fuldrik_refusal_place(file: &[u8]) -> u32
    ensures { PlaceOf file.now result }
{
    refusal_of(file).map_or(0, |refusal| refusal.place)
}

#[cfg(test)]
mod tests;
