// What banks and engines that are just made answer to lists of calls, as the worked cases have them.
#![tactic(auto)]

pub mod session;

ghost use Rattle.sessions.specs.Injected.{BoardAnswers};
ghost use Rattle.sessions.specs.Registers.{RegistersAnswer};

use bank::call::{Call, Reply};
use bank::fault::{BankFault, MakeFault};
use bank::playing::play;
use banks::register::register_bank;
use boardbank::board_bank;
use std::alloc::Global;

// What a register bank with these words answers to calls one after another.
pub fn register_answers(
    heap: Global,
    words: &[u32],
    calls: &[Call],
) -> Result<Vec<Result<Reply, BankFault>>, MakeFault>
    ensures { RegistersAnswer words.now calls.now result }
{
    let mut bank = register_bank(heap, words)?;
    Ok(play(heap, &mut bank, calls)?)
}

// What the bank of a board with these words and cells answers to calls one after another.
pub fn board_answers(
    heap: Global,
    registers: &[u32],
    buses: &[u32],
    quiets: &[u32],
    cells: Vec<u8>,
    calls: &[Call],
) -> Result<Vec<Result<Reply, BankFault>>, MakeFault>
    ensures { BoardAnswers (record { registers = registers.now; buses = buses.now; quiets = quiets.now; cells = cells.items }) calls.now result }
{
    let mut bank = board_bank(heap, registers, buses, quiets, cells)?;
    Ok(play(heap, &mut bank, calls)?)
}

#[cfg(test)]
mod tests;
