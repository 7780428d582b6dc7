// Where an engine stands.
ghost use Rattle.std.specs.Prelude.{◌≡◌};
ghost use Rattle.history.specs.Attempts.{stage_of};

use crate::outcome::Outcome;

// Where an engine stands, and what it keeps of the attempt that is open.
#[derive(Clone, Copy, PartialEq, Eq, Debug)]
pub enum Standing {
    // No attempt is open.
    Awake,
    // Each step lowers a device; the alarm of a device may be kept.
    GoingDown { alarm: Option<u8> },
    // Every device is at the deepest level.
    Asleep,
    // The descent has ended so, and each step raises a device.
    ComingUp { outcome: Outcome },
    // The descent has ended so, and every device is at level 0 again.
    Landed { outcome: Outcome },
}

// The same, without what is kept.
#[derive(Clone, Copy, PartialEq, Eq, Debug)]
pub enum Stage {
    Awake,
    GoingDown,
    Asleep,
    ComingUp,
    Landed,
}

impl Standing {
    pub fn stage(self) -> Stage
        ensures { result ≡ stage_of self }
    {
        match self {
            Standing::Awake => Stage::Awake,
            Standing::GoingDown { alarm: _ } => Stage::GoingDown,
            Standing::Asleep => Stage::Asleep,
            Standing::ComingUp { outcome: _ } => Stage::ComingUp,
            Standing::Landed { outcome: _ } => Stage::Landed,
        }
    }
}
