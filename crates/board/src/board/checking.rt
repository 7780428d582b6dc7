// Whether the bytes of a board file keep its rules. No call here asks for memory.
ghost use Rattle.board.specs.Checking.{Checks, Exactly};

use crate::board::Board;
use crate::board::checked::Checked;
use crate::records::Records;
use boardfile::fault::BoardFault;
use order::ordering::Order;

impl Records<'_> {
    // The order of the board, or the device from which superiors run in a circle.
    pub(crate) fn order(&self) -> Result<Order, BoardFault>
        ensures { Checks self.now.frame.file.now result }
    {
        Ok(self.superiors().order()?)
    }
}

// The order alone.
fn order_in(bytes: &[u8]) -> Result<Order, BoardFault>
    ensures { Checks bytes.now result }
{
    Ok(*Checked::new(bytes)?.order())
}

impl Board {
    // The order of the board that the bytes of a board file describe, or the first rule that they break.
    pub fn check(bytes: &[u8]) -> Result<Order, BoardFault>
        ensures checks { Checks bytes.now result }
        ensures exactly { Exactly bytes.now result }
    {
        order_in(bytes)
    }
}
