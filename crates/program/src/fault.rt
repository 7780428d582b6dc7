// The refusals of files and programs.
ghost use Rattle.std.specs.Prelude.{◌≡◌};
ghost use Rattle.program.specs.declared.fault.ProgramFault.TheVariants.{Board as OfBoard, Engine as OfEngine};
ghost use Rattle.program.specs.declared.fault.RunFault.TheVariants.{Program, Memory as Want};
ghost use Rattle.program.specs.Faults.{told, board_unread, bank_unmade, engine_unmade};

use bank::bank::Bank;
use bank::fault::MakeFault as BankMakeFault;
use boardfile::fault::{BoardFault, ReadFault};
use engine::engine::making::{MakeFault, Unmade};
use history::fault::{EngineFault, Met};
use refusal::{Layer, Refusal};
use std::alloc::{AllocError, AllocFailed};

// Why a run, a what-if or the writing of a line is refused.
#[derive(Clone, Copy, PartialEq, Eq, Debug)]
pub enum ProgramFault {
    // The board file is refused.
    Board { fault: BoardFault },
    // The fault sheet is too short or too long for the board.
    Sheet,
    // The buffer for a line is too short.
    Buffer,
    // The board of a what-if has no device of this number.
    NoDevice { device: u8 },
    // The level of a what-if is not 1 to 4.
    NoLevel,
    // The engine refused; so many of its calls were obeyed before, its making counted.
    Engine { fault: EngineFault, calls: u16 },
}

// A refusal of the engine, and how many of its calls were obeyed before.
#[derive(Clone, Copy, PartialEq, Eq, Debug)]
pub struct Called {
    pub fault: EngineFault,
    pub calls: u16,
}

// Why there is no answer.
#[derive(Clone, Copy, PartialEq, Eq, Debug)]
pub enum RunFault {
    // The program refuses.
    Program { fault: ProgramFault },
    // There is no memory for what was asked.
    Memory,
}

impl From<BoardFault> for ProgramFault {
    ghost from_gives = { λ fault r. r ≡ OfBoard fault };

    fn from(fault: BoardFault) -> ProgramFault {
        ProgramFault::Board { fault }
    }
}

// The engine's fault travels whole, with a bank's inside where one refused.
impl From<Called> for ProgramFault {
    ghost from_gives = { λ called r. r ≡ OfEngine called.fault called.calls };

    fn from(called: Called) -> ProgramFault {
        ProgramFault::Engine {
            fault: called.fault,
            calls: called.calls,
        }
    }
}

// Layer, number and place of the refusal: those of the innermost layer that refused.
impl From<ProgramFault> for Refusal {
    ghost from_gives = { λ fault r. r ≡ told fault };

    fn from(fault: ProgramFault) -> Refusal {
        let (number, place) = match fault {
            ProgramFault::Board { fault } => return Refusal::from(fault),
            ProgramFault::Engine { fault, calls: _ } => return Refusal::from(fault),
            ProgramFault::Sheet => (8, 0),
            ProgramFault::Buffer => (11, 0),
            ProgramFault::NoDevice { device } => (12, device),
            ProgramFault::NoLevel => (13, 0),
        };
        Refusal {
            layer: Layer::File,
            number,
            place: u32::from(place),
        }
    }
}

impl From<ProgramFault> for RunFault {
    ghost from_gives = { λ fault r. r ≡ Program fault };

    fn from(fault: ProgramFault) -> RunFault {
        RunFault::Program { fault }
    }
}

impl From<BoardFault> for RunFault {
    ghost from_gives = { λ fault r. r ≡ Program (OfBoard fault) };

    fn from(fault: BoardFault) -> RunFault {
        RunFault::from(ProgramFault::from(fault))
    }
}

impl From<ReadFault> for RunFault {
    ghost from_gives = { λ fault r. r ≡ board_unread fault };

    fn from(fault: ReadFault) -> RunFault {
        match fault {
            ReadFault::Board { fault } => RunFault::from(fault),
            ReadFault::Memory => RunFault::Memory,
        }
    }
}

impl From<Called> for RunFault {
    ghost from_gives = { λ called r. r ≡ Program (OfEngine called.fault called.calls) };

    fn from(called: Called) -> RunFault {
        RunFault::from(ProgramFault::from(called))
    }
}

// A bank is made before the engine, when nothing is lowered and no call was obeyed.
impl From<BankMakeFault> for RunFault {
    ghost from_gives = { λ fault r. r ≡ bank_unmade fault };

    fn from(fault: BankMakeFault) -> RunFault {
        match fault {
            BankMakeFault::Bank { fault } => {
                let fault = EngineFault::from(Met { fault, lowered: 0 });
                RunFault::from(Called { fault, calls: 0 })
            }
            BankMakeFault::Memory => RunFault::Memory,
        }
    }
}

// No call was obeyed before the making. The bank is dropped.
impl<B: Bank + Drop> From<Unmade<B>> for RunFault {
    ghost from_gives = { λ unmade r. r ≡ engine_unmade unmade.fault };

    fn from(unmade: Unmade<B>) -> RunFault {
        match unmade.fault {
            MakeFault::Engine { fault } => RunFault::from(Called { fault, calls: 0 }),
            MakeFault::Memory => RunFault::Memory,
        }
    }
}

impl From<AllocError> for RunFault {
    ghost from_gives = { λ _ r. r ≡ Want };

    fn from(_e: AllocError) -> RunFault {
        RunFault::Memory
    }
}

impl<T: Drop> From<AllocFailed<T>> for RunFault {
    ghost from_gives = { λ _ r. r ≡ Want };

    fn from(_e: AllocFailed<T>) -> RunFault {
        RunFault::Memory
    }
}
