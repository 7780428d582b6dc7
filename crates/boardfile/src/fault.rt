// The refusals of a board file.
ghost use Rattle.std.specs.Prelude.{◌≡◌};
ghost use Rattle.boardfile.specs.declared.fault.BoardFault.TheVariants.{Circle as InCircle};
ghost use Rattle.boardfile.specs.declared.fault.ReadFault.TheVariants.{Board, Memory};
ghost use Rattle.boardfile.specs.Faults.{told};

use order::ordering::Circle;
use refusal::{Layer, Refusal};
use std::alloc::{AllocError, AllocFailed};

// The rule that a board file breaks. Places are counted from the start of the file.
#[derive(Clone, Copy, PartialEq, Eq, Debug)]
pub enum BoardFault {
    // Too short or too long.
    Size,
    // The mark or the edition is wrong; the trailer begins at this place.
    Mark { at: u16 },
    // Too few or too many devices, too many links, or the trailer's zero bytes are not zero.
    Counts { at: u16 },
    // A table leaves the file or runs into the trailer, or the two overlap.
    Tables { at: u16 },
    // This device record is the first that is wrong.
    DeviceRecord { at: u16 },
    // This link record is the first that is wrong.
    LinkRecord { at: u16 },
    // Superiors run in a circle, and this is the least device from which a chain of them never ends.
    Circle { device: u8 },
}

// Why a board was not read.
#[derive(Clone, Copy, PartialEq, Eq, Debug)]
pub enum ReadFault {
    // The file is no board.
    Board { fault: BoardFault },
    // It is one, but there is no memory for it.
    Memory,
}

// The layer, number and place of the refusal.
impl From<BoardFault> for Refusal {
    ghost from_gives = { λ fault r. r ≡ told fault };

    fn from(fault: BoardFault) -> Refusal {
        let (number, place) = match fault {
            BoardFault::Size => (1, 0),
            BoardFault::Mark { at } => (2, at),
            BoardFault::Counts { at } => (3, at),
            BoardFault::Tables { at } => (4, at),
            BoardFault::DeviceRecord { at } => (5, at),
            BoardFault::LinkRecord { at } => (6, at),
            BoardFault::Circle { device } => (7, u16::from(device)),
        };
        Refusal {
            layer: Layer::File,
            number,
            place: u32::from(place),
        }
    }
}

impl From<Circle> for BoardFault {
    ghost from_gives = { λ circle r. r ≡ InCircle circle.device };

    fn from(circle: Circle) -> BoardFault {
        BoardFault::Circle {
            device: circle.device,
        }
    }
}

impl From<BoardFault> for ReadFault {
    ghost from_gives = { λ fault r. r ≡ Board fault };

    fn from(fault: BoardFault) -> ReadFault {
        ReadFault::Board { fault }
    }
}

impl From<AllocError> for ReadFault {
    ghost from_gives = { λ _ r. r ≡ Memory };

    fn from(_e: AllocError) -> ReadFault {
        ReadFault::Memory
    }
}

impl<T: Drop> From<AllocFailed<T>> for ReadFault {
    ghost from_gives = { λ _ r. r ≡ Memory };

    fn from(_e: AllocFailed<T>) -> ReadFault {
        ReadFault::Memory
    }
}
