// How an attempt ends.
ghost use Rattle.std.specs.Prelude.{◌≡◌};
ghost use Rattle.history.specs.Numbers.{outcome_values};

use crate::phase::Phase;

// `taken` is how many lowerings stood at the end of the descent: the sum of all levels then.
#[derive(Clone, Copy, PartialEq, Eq, Debug)]
pub enum Outcome {
    // The board slept. The alarm is that of the device that woke it, if one did.
    Slept {
        alarm: Option<u8>,
        taken: u16,
    },
    // This device was to be lowered in this phase, and had this hindrance.
    Fault {
        errno: u16,
        device: u8,
        phase: Phase,
        taken: u16,
    },
    // The alarm of this device was kept before the board slept; the next lowering would have been in this phase.
    Alarm {
        device: u8,
        phase: Phase,
        taken: u16,
    },
    // The attempt was closed going down, with no alarm kept; the next lowering would have been in this phase.
    Cancelled {
        phase: Phase,
        taken: u16,
    },
}

// An outcome as five numbers: its kind, 0 to 3; an errno, 0 for none; a device, 255 for none; a phase, 0 for none; and the
// lowerings taken.
#[derive(Clone, Copy, PartialEq, Eq, Debug)]
pub struct Values {
    pub kind: u8,
    pub errno: u16,
    pub device: u8,
    pub phase: u8,
    pub taken: u16,
}

impl Outcome {
    pub fn values(self) -> Values
        ensures { result ≡ outcome_values self }
    {
        let (kind, errno, device, phase, taken) = match self {
            Outcome::Slept { alarm, taken } => (0, 0, alarm.unwrap_or(255), 0, taken),
            Outcome::Fault {
                errno,
                device,
                phase,
                taken,
            } => (1, errno, device, phase.number(), taken),
            Outcome::Alarm {
                device,
                phase,
                taken,
            } => (2, 16, device, phase.number(), taken),
            Outcome::Cancelled { phase, taken } => (3, 0, 255, phase.number(), taken),
        };
        Values {
            kind,
            errno,
            device,
            phase,
            taken,
        }
    }
}
