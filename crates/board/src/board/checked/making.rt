// How a board file is tested, and its board read.
ghost use Rattle.std.specs.Prelude.{◌≡◌, IfOk, MatchResult};
ghost use Rattle.boardfile.specs.Faults.{Refused, Right};
ghost use Rattle.board.specs.Checking.{file_of};
ghost use Rattle.board.specs.Reading.{Says};
ghost use Rattle.board.specs.Wiring.{Ordered};

use crate::board::Board;
use crate::board::checked::Checked;
use crate::records::Records;
use boardfile::fault::BoardFault;
use order::ordering::Order;
use std::alloc::{AllocError, Global};

impl<'a> Checked<'a> {
    // The bytes of a board file, or the first rule that they break. No memory is needed.
    pub fn new(bytes: &'a [u8]) -> Result<Checked<'a>, BoardFault>
        ensures { MatchResult result (λ checked. (file_of checked ≡ bytes.now) × Right bytes.now × Ordered bytes.now checked.order) (Refused bytes.now) }
    {
        let records = Records::read(bytes)?;
        let order = records.order()?;
        Ok(Checked { records, order })
    }

    // The order of the devices.
    #[tactic(auto, using(crate::proofs::Wires::ordered_known))]
    pub fn order(&self) -> &Order
        ensures same { result.now ≡ self.now.order }
        ensures ordered { Ordered (file_of self.now) result.now }
    {
        &self.order
    }

    // The board that the bytes describe.
    #[tactic(auto, using(crate::proofs::Wires::ordered_known, crate::proofs::Wires::said))]
    pub fn board(&self, heap: Global) -> Result<Board, AllocError>
        ensures { IfOk result (Says (file_of self.now)) }
    {
        Ok(Board {
            devices: self.records.devices(heap)?,
            links: self.records.links(heap)?,
            kinds: self.records.frame.kinds,
            order: self.order,
        })
    }
}
