// From the bytes of a board file to the text that is printed of it.
ghost use Rattle.std.specs.Prelude.{◌≡◌, OnOk};
ghost use Rattle.std.specs.Io.KnownBytes.{Appends};
ghost use Rattle.listing.specs.declared.printing.ListFault.TheVariants.{Memory};
ghost use Rattle.listing.specs.Printing.{Lists, handed_on, printed};

use crate::lines::order_lines;
use board::board::Board;
use boardfile::fault::ReadFault;
use refusal::Refusal;
use std::alloc::{AllocError, Global};
use std::io;

// Why the devices of a board file are not listed.
#[derive(Clone, Copy, PartialEq, Eq, Debug)]
pub enum ListFault {
    // The file is refused.
    Refused { refusal: Refusal },
    // There is no memory for the board or for its text.
    Memory,
}

impl From<ReadFault> for ListFault {
    ghost from_gives = { λ fault r. r ≡ handed_on fault };

    fn from(fault: ReadFault) -> ListFault {
        match fault {
            ReadFault::Board { fault } => ListFault::Refused {
                refusal: Refusal::from(fault),
            },
            ReadFault::Memory => ListFault::Memory,
        }
    }
}

impl From<AllocError> for ListFault {
    ghost from_gives = { λ _ r. r ≡ Memory };

    fn from(_e: AllocError) -> ListFault {
        ListFault::Memory
    }
}

// The lines of the board that the bytes of a board file describe, or their refusal.
pub fn list(heap: Global, bytes: &[u8]) -> Result<String, ListFault>
    ensures { Lists bytes.now result }
{
    let board = Board::read(heap, bytes)?;
    Ok(order_lines(heap, &board)?)
}

// Writes what is printed of a board file: its lines, or the line of its refusal; nothing where memory was wanting.
pub fn write_listed<W: io::Write>(listed: &Result<String, ListFault>, out: &mut W) -> io::Result<()>
    ensures { OnOk result (Appends (W.contents out.old) (W.contents out.new) (printed listed.now)) }
{
    match listed {
        Ok(lines) => out.write_all(lines.as_bytes()),
        Err(ListFault::Refused { refusal }) => writeln!(out, "{refusal}"),
        Err(ListFault::Memory) => Ok(()),
    }
}
