// The making of an engine.
ghost use Rattle.std.specs.Prelude.{◌≡◌, [], ◌&&◌, ◌==◌, nat_lt, length, IfOk};
ghost use Rattle.bank.specs.Meaning.{level};
ghost use Rattle.order.specs.Answers.{devices};
ghost use Rattle.history.specs.declared.fault.EngineFault.TheVariants as fault;
ghost use Rattle.history.specs.Law.{LedTo};
ghost use Rattle.engine.specs.declared.engine.making.MakeFault.TheVariants.{Engine as Refused, Memory as Want};
ghost use Rattle.engine.specs.Making.{Readies, Rooms, Makes};
ghost use Rattle.engine.specs.States.{state};

use crate::engine::Engine;
use bank::bank::Bank;
use history::entry::Entry;
use history::fault::EngineFault;
use history::standing::Standing;
use order::ordering::Order;
use std::alloc::{AllocError, Global};

// Why an engine is not made.
#[derive(Clone, Copy, PartialEq, Eq, Debug)]
pub enum MakeFault {
    // It is refused.
    Engine { fault: EngineFault },
    // There is no memory for its journal.
    Memory,
}

impl From<EngineFault> for MakeFault {
    ghost from_gives = { λ fault r. r ≡ Refused fault };

    fn from(fault: EngineFault) -> MakeFault {
        MakeFault::Engine { fault }
    }
}

impl From<AllocError> for MakeFault {
    ghost from_gives = { λ _ r. r ≡ Want };

    fn from(_e: AllocError) -> MakeFault {
        MakeFault::Memory
    }
}

// A bank of which no engine was made, and why.
#[derive(Drop)]
pub struct Unmade<B: Bank> {
    pub fault: MakeFault,
    pub bank: B,
}

// Whether this is a device at level 0.
fn is_running<B: Bank>(bank: &B, device: u8) -> bool
    ensures { result ≡ (nat_lt device (length (B.kind.devices (B.model bank.now))) && (level (B.kind.devices (B.model bank.now)) device == 0)) }
{
    matches!(bank.look(device), Ok((0, _, _)))
}

// Whether an engine can be made of this order and this bank.
#[tactic(auto, using(crate::proofs::Readiness::all_running))]
fn readied<B: Bank>(order: &Order, bank: &B) -> Result<(), EngineFault>
    ensures { Readies (devices order.now) (B.kind.devices (B.model bank.now)) result }
{
    let count = bank.count();
    if usize::from(count) != order.devices().len() {
        return Err(EngineFault::CountsDiffer);
    }
    for device in 0..count {
        if !is_running(bank, device) {
            return Err(EngineFault::NotRunning);
        }
    }
    Ok(())
}

// The room for the journal, where an engine can be made.
fn room<B: Bank>(heap: Global, order: &Order, bank: &B) -> Result<Vec<Entry>, MakeFault>
    ensures { Rooms (devices order.now) (B.kind.devices (B.model bank.now)) result }
{
    readied(order, bank)?;
    Ok(Vec::with_capacity(heap, 8 * order.devices().len())?)
}

impl<B: Bank> Engine<B> {
    // An engine that is awake. Refused where the order and the bank differ in their number of devices, and where a device is not
    // at level 0; the bank is then handed back.
    #[tactic(auto, using(crate::proofs::Readiness::ready_sum, crate::proofs::Readiness::ready_scheduled))]
    pub fn new(heap: Global, order: Order, bank: B) -> Result<Engine<B>, Unmade<B>>
        ensures makes { Makes ⟦<B as Bank>⟧ order bank result }
        ensures led { IfOk result (λ engine. LedTo B.kind (devices order) [] (state ⟦<B as Bank>⟧ engine)) }
    {
        let journal = match room(heap, &order, &bank) {
            Ok(journal) => journal,
            Err(fault) => return Err(Unmade { fault, bank }),
        };
        Ok(Engine {
            bank,
            order,
            standing: Standing::Awake,
            lowered: 0,
            journal,
        })
    }
}
