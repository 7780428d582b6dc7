ghost use Rattle.std.specs.Prelude.{Some};
ghost use Rattle.refusal.specs.Lines.{line};

use crate::layer::Layer;
use std::fmt;

// Who refused, under which number, and where. What a place counts goes by the number: bytes from the start of a file, a
// device, or nothing.
#[derive(Clone, Copy, PartialEq, Eq, Debug)]
pub struct Refusal {
    pub layer: Layer,
    pub number: u8,
    pub place: u32,
}

// One line, without a line end.
impl fmt::Display for Refusal {
    ghost output = { λ refusal. Some (line refusal) };

    fn fmt<W: fmt::Write>(&self, f: &mut fmt::Formatter<W>) -> fmt::Result {
        let Refusal {
            layer,
            number,
            place,
        } = *self;
        write!(f, "! {layer} {number} {place}")
    }
}
