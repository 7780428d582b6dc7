// The refusals of a bank.
ghost use Rattle.std.specs.Prelude.{◌≡◌};
ghost use Rattle.bank.specs.declared.fault.MakeFault.TheVariants.{Bank as Refused, Memory};
ghost use Rattle.bank.specs.Faults.{told};

use refusal::{Layer, Refusal};
use std::alloc::{AllocError, AllocFailed};

// Why a bank refuses a call, or is not made.
#[derive(Clone, Copy, PartialEq, Eq, Debug)]
pub enum BankFault {
    // The bank has no device of this number.
    NoDevice { device: u8 },
    // The level of this device does not allow the call.
    WrongLevel { device: u8 },
    // A bank of more than 64 devices was asked for.
    TooMany,
}

// Why a bank is not made.
#[derive(Clone, Copy, PartialEq, Eq, Debug)]
pub enum MakeFault {
    // It is refused.
    Bank { fault: BankFault },
    // There is no memory for it.
    Memory,
}

// The layer, number and place of the refusal.
impl From<BankFault> for Refusal {
    ghost from_gives = { λ fault r. r ≡ told fault };

    fn from(fault: BankFault) -> Refusal {
        let (number, place) = match fault {
            BankFault::NoDevice { device } => (12, device),
            BankFault::WrongLevel { device } => (26, device),
            BankFault::TooMany => (27, 0),
        };
        Refusal {
            layer: Layer::Bank,
            number,
            place: u32::from(place),
        }
    }
}

impl From<BankFault> for MakeFault {
    ghost from_gives = { λ fault r. r ≡ Refused fault };

    fn from(fault: BankFault) -> MakeFault {
        MakeFault::Bank { fault }
    }
}

impl From<AllocError> for MakeFault {
    ghost from_gives = { λ _ r. r ≡ Memory };

    fn from(_e: AllocError) -> MakeFault {
        MakeFault::Memory
    }
}

impl<T: Drop> From<AllocFailed<T>> for MakeFault {
    ghost from_gives = { λ _ r. r ≡ Memory };

    fn from(_e: AllocFailed<T>) -> MakeFault {
        MakeFault::Memory
    }
}
