// Calls of an engine over the bank of a board.
ghost use Rattle.std.specs.Prelude.{◌≡◌};
ghost use Rattle.order.specs.Answers.{devices};
ghost use Rattle.sessions.specs.Sessions.{RunAnswers, SessionAnswers, bank_unmade, engine_unmade};
ghost use Rattle.sessions.specs.declared.session.SessionFault.TheVariants.{Memory as Want};

use bank::bank::Bank;
use bank::fault::{BankFault, MakeFault as BankMakeFault};
use boardbank::board_bank;
use engine::engine::Engine;
use engine::engine::making::{MakeFault, Unmade};
use engine::engine::playing::Played;
use engine::ticket::Ticket;
use history::answer::Answer;
use history::call::Call;
use history::entry::Entry;
use history::fault::EngineFault;
use history::standing::Stage;
use order::ordering::Order;
use std::alloc::{AllocError, Global};

// What calls were answered, the journal and the stage after them, and the ticket of the attempt that is open then.
#[derive(Drop)]
pub struct Session {
    pub answers: Vec<Result<Answer, EngineFault>>,
    pub journal: Vec<Entry>,
    pub stage: Stage,
    pub ticket: Option<Ticket>,
}

// Why there is no session.
#[derive(Clone, Copy, PartialEq, Eq, Debug)]
pub enum SessionFault {
    // The bank is refused.
    Bank { fault: BankFault },
    // The engine is refused.
    Engine { fault: EngineFault },
    // There is no memory.
    Memory,
}

impl From<BankMakeFault> for SessionFault {
    ghost from_gives = { λ fault r. r ≡ bank_unmade fault };

    fn from(fault: BankMakeFault) -> SessionFault {
        match fault {
            BankMakeFault::Bank { fault } => SessionFault::Bank { fault },
            BankMakeFault::Memory => SessionFault::Memory,
        }
    }
}

// The bank is dropped.
impl<B: Bank + Drop> From<Unmade<B>> for SessionFault {
    ghost from_gives = { λ unmade r. r ≡ engine_unmade unmade.fault };

    fn from(unmade: Unmade<B>) -> SessionFault {
        match unmade.fault {
            MakeFault::Engine { fault } => SessionFault::Engine { fault },
            MakeFault::Memory => SessionFault::Memory,
        }
    }
}

impl From<AllocError> for SessionFault {
    ghost from_gives = { λ _ r. r ≡ Want };

    fn from(_e: AllocError) -> SessionFault {
        SessionFault::Memory
    }
}

// An engine of this order over this bank, and calls of it one after another.
fn run<B: Bank + Drop>(
    heap: Global,
    order: Order,
    bank: B,
    calls: &[Call],
) -> Result<Session, SessionFault>
    ensures { RunAnswers B.kind (B.model bank) (devices order) calls.now result }
{
    let mut journal = Vec::with_capacity(heap, 8 * order.devices().len())?;
    let mut engine = Engine::new(heap, order, bank)?;
    let Played { answers, ticket } = engine.play(heap, calls)?;
    journal.extend_from_slice(engine.entries()).unwrap();
    let stage = engine.stage();
    Ok(Session {
        answers,
        journal,
        stage,
        ticket,
    })
}

// The same over the bank of a board with these words and cells.
pub fn run_session(
    heap: Global,
    order: Order,
    registers: &[u32],
    buses: &[u32],
    quiets: &[u32],
    cells: Vec<u8>,
    calls: &[Call],
) -> Result<Session, SessionFault>
    ensures { SessionAnswers (record { registers = registers.now; buses = buses.now; quiets = quiets.now; cells = cells.items }) (devices order) calls.now result }
{
    let bank = board_bank(heap, registers, buses, quiets, cells)?;
    run(heap, order, bank, calls)
}
