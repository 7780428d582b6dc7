// A board: its devices and links, and the order of its devices.
pub mod checked;
mod checking;
mod reading;

ghost use Rattle.std.specs.Prelude.{◌≡◌, ◌+◌, vec_len};
ghost use Rattle.boardfile.specs.Contents.{AsciiNames, TellApart};

use boardfile::device::{Device, Kinds, Link};
use order::ordering::Order;

// The board that a board file describes, which only `Board::read` and `Checked::board` make. Its devices are numbered from 0: first
// those in registers, then those on the bus, then the quiet ones.
#[derive(Drop)]
pub struct Board {
    devices: Vec<Device>,
    links: Vec<Link>,
    kinds: Kinds,
    order: Order,
    ghost many: { vec_len devices ≡ order.superiors.count },
    ghost ascii: { AsciiNames devices.items },
    ghost told_apart: { TellApart devices.items },
    ghost kinds_sum: { kinds.register + kinds.bus + kinds.quiet ≡ order.superiors.count },
}
