// The line of a refusal.
ghost use Rattle.std.specs.Prelude.{◌≡◌, if◌then◌else◌, nat_lt, length, Ok, Err};
ghost use Rattle.program.specs.declared.fault.ProgramFault.TheVariants.{Buffer};
ghost use Rattle.lines.specs.Lines.{line_room};
ghost use Rattle.refusal.specs.Lines.{line};
ghost use Rattle.lines.specs.Writing.{WritesLine};

use crate::LINE_ROOM;
use crate::fields::{Field, write_fields};
use program::fault::ProgramFault;
use refusal::Refusal;

// Whether a buffer has room for any line.
pub(crate) fn check_room(out: &[u8]) -> Result<(), ProgramFault>
    ensures { result ≡ (if nat_lt (length out.now) line_room then Err Buffer else Ok tt) }
{
    if out.len() < LINE_ROOM {
        return Err(ProgramFault::Buffer);
    }
    Ok(())
}

// Writes the line of a refusal to the front of a buffer, without a line end, and answers its length.
#[tactic(auto, using(crate::proofs::Joined::written, crate::proofs::Joined::refusal_joined, crate::proofs::Joined::refusal_room))]
pub fn refusal_line(refusal: Refusal, out: &mut [u8]) -> Result<usize, ProgramFault>
    ensures { WritesLine (line refusal) out.old out.new result }
{
    check_room(out)?;
    let Refusal {
        layer,
        number,
        place,
    } = refusal;
    let fields = [
        Field::Number {
            value: u32::from(layer.number()),
        },
        Field::Number {
            value: u32::from(number),
        },
        Field::Number { value: place },
    ];
    Ok(write_fields(out, Field::Text { text: b"!" }, &fields))
}
