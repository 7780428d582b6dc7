ghost use Rattle.std.specs.Prelude.{◌≡◌, Some, decimal};
ghost use Rattle.refusal.specs.Lines.{layer_number, layer_of};

use std::fmt;

// Who refuses. A layer is printed by its number.
#[derive(Clone, Copy, PartialEq, Eq, Debug)]
pub enum Layer {
    // A bank of devices.
    Bank,
    // The engine that takes devices down and up.
    Engine,
    // Files and programs.
    File,
    // A layer of the caller's own. No refusal of a call here has one.
    Other { number: u8 },
}

impl Layer {
    // The number that is printed.
    pub fn number(self) -> u8
        ensures { result ≡ layer_number self }
    {
        match self {
            Layer::Bank => 1,
            Layer::Engine => 2,
            Layer::File => 3,
            Layer::Other { number } => number,
        }
    }
}

// The layer of a number: every number has one.
impl From<u8> for Layer {
    ghost from_gives = { λ number r. (r ≡ layer_of number) × (layer_number r ≡ number) };

    fn from(number: u8) -> Layer {
        match number {
            1 => Layer::Bank,
            2 => Layer::Engine,
            3 => Layer::File,
            _ => Layer::Other { number },
        }
    }
}

impl fmt::Display for Layer {
    ghost output = { λ layer. Some (decimal (layer_number layer)) };

    fn fmt<W: fmt::Write>(&self, f: &mut fmt::Formatter<W>) -> fmt::Result {
        write!(f, "{}", self.number())
    }
}
