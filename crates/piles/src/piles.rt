// The words of the devices of a bank.
mod table;

ghost use Rattle.std.specs.Prelude.{◌≤◌, vec_len};

use crate::pile::Pile;

// The piles of at most 64 devices.
#[derive(Drop)]
pub struct Piles {
    piles: Vec<Pile>,
    ghost few: { vec_len piles ≤ 64 },
}
