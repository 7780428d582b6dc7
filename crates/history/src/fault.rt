// The refusals of an engine.
ghost use Rattle.std.specs.Prelude.{◌≡◌};
ghost use Rattle.history.specs.Faults.{told};
ghost use Rattle.history.specs.declared.fault.EngineFault.TheVariants.{Bank as OfBank};

use bank::fault::BankFault;
use refusal::{Layer, Refusal};

// Why an engine refuses a call, or is not made.
#[derive(Clone, Copy, PartialEq, Eq, Debug)]
pub enum EngineFault {
    // The bank refused; so many lowerings stood, which is the sum of all levels.
    Bank { fault: BankFault, lowered: u16 },
    // The order and the bank differ in their number of devices.
    CountsDiffer,
    // A device is not at level 0.
    NotRunning,
    // An attempt is open.
    InAttempt,
    // No attempt is open.
    NothingOpen,
    // The board is asleep, or has landed.
    AtRest,
    // The journal has no entry of this index.
    NoEntry,
}

// A fault of the bank, and how many lowerings stood.
#[derive(Clone, Copy, PartialEq, Eq, Debug)]
pub struct Met {
    pub fault: BankFault,
    pub lowered: u16,
}

// It travels whole.
impl From<Met> for EngineFault {
    ghost from_gives = { λ met r. r ≡ OfBank met.fault met.lowered };

    fn from(met: Met) -> EngineFault {
        EngineFault::Bank {
            fault: met.fault,
            lowered: met.lowered,
        }
    }
}

// Layer, number and place of the refusal: those of the bank where it came from there.
impl From<EngineFault> for Refusal {
    ghost from_gives = { λ fault r. r ≡ told fault };

    fn from(fault: EngineFault) -> Refusal {
        let number = match fault {
            EngineFault::Bank { fault, lowered: _ } => return Refusal::from(fault),
            EngineFault::CountsDiffer => 20,
            EngineFault::NotRunning => 21,
            EngineFault::InAttempt => 22,
            EngineFault::NothingOpen => 23,
            EngineFault::AtRest => 24,
            EngineFault::NoEntry => 25,
        };
        Refusal {
            layer: Layer::Engine,
            number,
            place: 0,
        }
    }
}
