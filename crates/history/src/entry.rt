// The entries of the journal.
ghost use Rattle.std.specs.Prelude.{◌≡◌};
ghost use Rattle.history.specs.Numbers.{direction_sign};

use crate::phase::Phase;

// Down for a lowering, up for a raising.
#[derive(Clone, Copy, PartialEq, Eq, Debug)]
pub enum Direction {
    Down,
    Up,
}

// One lowering, taken or not, or one raising. The phase of a raising is that of the lowering that it undoes. The code is what the
// bank answered: 0 for done, or below zero the hindrance negated.
#[derive(Clone, Copy, PartialEq, Eq, Debug)]
pub struct Entry {
    pub device: u8,
    pub phase: Phase,
    pub direction: Direction,
    pub code: i16,
}

impl Direction {
    // 1 for a lowering, −1 for a raising.
    pub fn sign(self) -> i8
        ensures { result ≡ direction_sign self }
    {
        match self {
            Direction::Down => 1,
            Direction::Up => -1,
        }
    }
}
