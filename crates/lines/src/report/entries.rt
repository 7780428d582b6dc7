// The line of an entry: the device's name, the callback and the code.
ghost use Rattle.lines.specs.Writing.{WritesEntry, Finds, ReadBack, board_devices};

use crate::fields::{Field, write_fields};
use crate::refusals::check_room;
use crate::report::Report;
use crate::words;
use history::entry::Entry;
use history::fault::EngineFault;
use program::fault::{Called, ProgramFault};

impl Report {
    // The entry of this index.
    fn entry(&self, index: usize) -> Result<Entry, ProgramFault>
        ensures { Finds self.now index result }
    {
        let entry = self.journal().get(index).copied();
        let calls = self.attempt.calls();
        let fault = EngineFault::NoEntry;
        Ok(entry.ok_or(Called { fault, calls })?)
    }

    // Writes the line of an entry to the front of a buffer, without a line end, and answers its length. Refused where the buffer
    // is too short, and then where there is no entry of this index.
    #[tactic(auto, using(crate::proofs::Joined::written, crate::proofs::Joined::entry_joined, crate::proofs::Joined::entry_room, crate::proofs::ReadBack::read_back))]
    pub fn entry_line(&self, index: usize, out: &mut [u8]) -> Result<usize, ProgramFault>
        ensures line { WritesEntry self.now index out.old out.new result }
        ensures read_back { ReadBack (board_devices self.now) }
    {
        check_room(out)?;
        let Entry {
            device,
            phase,
            direction,
            code,
        } = self.entry(index)?;
        let name = Field::Text {
            text: self.name(device),
        };
        let fields = [
            Field::Text {
                text: words::callback(direction, phase),
            },
            Field::Signed { value: code },
        ];
        Ok(write_fields(out, name, &fields))
    }
}
