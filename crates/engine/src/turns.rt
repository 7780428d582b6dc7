// The device and the phase of each lowering.
ghost use Rattle.std.specs.Prelude.{◌≡◌, ◌<◌, length, unsigned_abs};
ghost use Rattle.history.specs.declared.outcome.Outcome.TheVariants.{Fault};
ghost use Rattle.history.specs.Schedule.{phase_at, phase, device_of, full};

use history::entry::{Direction, Entry};
use history::outcome::Outcome;
use history::phase::Phase;

#[derive(Clone, Copy)]
pub(crate) struct Turn {
    pub(crate) device: u8,
    pub(crate) phase: Phase,
}

// The phases by number, from 0 on.
fn phase_of(number: usize) -> Phase
    ensures { result ≡ phase_at number }
{
    match number {
        0 => Phase::Prepare,
        1 => Phase::Suspend,
        2 => Phase::Late,
        _ => Phase::Noirq,
    }
}

impl Turn {
    // In the first phase from the front of the order, in the later ones from its back.
    pub(crate) fn of(places: &[u8], lowering: u16) -> Turn
        requires { lowering < full places.now }
        ensures device { result.device ≡ device_of places.now lowering }
        ensures phase { result.phase ≡ phase (length places.now) lowering }
    {
        let count = places.len();
        let number = usize::from(lowering) / count;
        let from_front = usize::from(lowering) % count;
        let place = if number == 0 {
            from_front
        } else {
            count - 1 - from_front
        };
        Turn {
            device: places[place],
            phase: phase_of(number),
        }
    }

    pub(crate) fn entry(self, direction: Direction, code: i16) -> Entry
        ensures { result ≡ record { device = self.device; phase = self.phase; direction = direction; code = code } }
    {
        let Turn { device, phase } = self;
        Entry {
            device,
            phase,
            direction,
            code,
        }
    }

    // What a lowering gives that is answered by this code, below zero, after so many were taken.
    pub(crate) fn fault(self, code: i16, taken: u16) -> Outcome
        ensures { result ≡ Fault (unsigned_abs code) self.device self.phase taken }
    {
        let Turn { device, phase } = self;
        let errno = code.unsigned_abs();
        Outcome::Fault {
            errno,
            device,
            phase,
            taken,
        }
    }
}
