// The phases of an attempt.
ghost use Rattle.std.specs.Prelude.{◌≡◌};
ghost use Rattle.history.specs.Numbers.{phase_number};

// Going down, each phase takes every device one level deeper, into the level of its number.
#[derive(Clone, Copy, PartialEq, Eq, Debug)]
pub enum Phase {
    Prepare = 1,
    Suspend = 2,
    Late = 3,
    Noirq = 4,
}

impl Phase {
    // 1 to 4.
    pub fn number(self) -> u8
        ensures { result ≡ phase_number self }
    {
        self as u8
    }
}
