// The line of an outcome.
ghost use Rattle.std.specs.Prelude.{◌≡◌, ◌+◌, ◌≤◌, length};
ghost use Rattle.attempt.specs.Keeping.{device_in};
ghost use Rattle.lines.specs.Lines.{name_or_none, outcome_line};
ghost use Rattle.lines.specs.Words.{kind_word};
ghost use Rattle.lines.specs.Writing.{WritesLine, ReadBack, board_devices};

use crate::fields::{Field, write_fields};
use crate::refusals::check_room;
use crate::report::Report;
use crate::words;
use history::outcome::Outcome;
use program::fault::ProgramFault;

// The device that an outcome names.
fn device_of(outcome: Outcome) -> Option<u8>
    ensures { result ≡ device_in outcome }
{
    match outcome {
        Outcome::Slept { alarm, .. } => alarm,
        Outcome::Fault { device, .. } | Outcome::Alarm { device, .. } => Some(device),
        Outcome::Cancelled { .. } => None,
    }
}

impl Report {
    // The name of the device that the outcome names, or a dash for none.
    #[tactic(auto, using(crate::proofs::Joined::kind_room, crate::proofs::Joined::kind_of_device))]
    fn named(&self) -> &[u8]
        ensures text { result.now ≡ name_or_none (board_devices self.now) (device_in self.now.attempt.outcome) }
        ensures most { length (kind_word self.now.attempt.outcome) + length result.now ≤ 13 }
    {
        match device_of(self.outcome()) {
            Some(device) => self.name(device),
            None => b"-",
        }
    }

    // Writes the line of the outcome to the front of a buffer, without a line end, and answers its length. Refused where the
    // buffer is too short.
    #[tactic(auto, using(crate::proofs::Joined::written, crate::proofs::Joined::outcome_joined, crate::proofs::Joined::outcome_room, crate::proofs::ReadBack::read_back))]
    pub fn outcome_line(&self, out: &mut [u8]) -> Result<usize, ProgramFault>
        ensures line { WritesLine (outcome_line (board_devices self.now) self.now.attempt.outcome) out.old out.new result }
        ensures read_back { ReadBack (board_devices self.now) }
    {
        check_room(out)?;
        let outcome = self.outcome();
        let values = outcome.values();
        let fields = [
            Field::Text {
                text: words::kind(outcome),
            },
            Field::Number {
                value: u32::from(values.errno),
            },
            Field::Text { text: self.named() },
            Field::Text {
                text: words::phase(outcome),
            },
            Field::Number {
                value: u32::from(values.taken),
            },
        ];
        Ok(write_fields(out, Field::Text { text: b"=" }, &fields))
    }
}
