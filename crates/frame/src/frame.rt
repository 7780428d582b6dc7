// The trailer of a board file: its last 16 bytes, which say how many devices and links there are, and where.
mod reading;

ghost use Rattle.std.specs.Prelude.{◌≡◌};
ghost use Rattle.boardfile.specs.Contents.{kinds_of};
ghost use Rattle.boardfile.specs.Rules.{Framed};
ghost use Rattle.frame.specs.Frames.{DevicesOf, LinksOf};

use crate::limits::{DEVICE_BYTES, LINK_BYTES};
use crate::table::Table;
use boardfile::device::Kinds;

// A board file whose trailer is right, and what it says.
#[derive(Clone, Copy)]
pub struct Frame<'a> {
    pub file: &'a [u8],
    pub kinds: Kinds,
    pub devices: Table<'a, DEVICE_BYTES>,
    pub links: Table<'a, LINK_BYTES>,
    pub ghost framed: { ∥ Framed file.now ∥₁ },
    pub ghost kinds_known: { kinds ≡ kinds_of file.now },
    pub ghost devices_known: { DevicesOf file.now devices.start devices.records.now },
    pub ghost links_known: { LinksOf file.now links.start links.records.now },
}
