// A whole run and a whole what-if for callers in C and Rust. The outcome goes out as five numbers.
ghost use Rattle.std.specs.Prelude.{◌≡◌, ◌↔◌, ◌<◌, ◌≤◌, ◌++◌, IsTrue, length, drop};
ghost use Rattle.exports.specs.Runs.{AskTold, OutcomeTold, RunTold, five_numbers, number_of_fault, outcome_in};
ghost use Rattle.exports.specs.Worked.{RunsWorked};

use history::outcome::{Outcome, Values};
use lines::report::Report;
use program::fault::RunFault;
use refusal::Refusal;
use run::running::run;
use run::whatif::what_if;
use std::alloc::Global;

// How many numbers an outcome has.
const NUMBERS: usize = 5;
// What is answered where there is too little room for them.
const NO_ROOM: u8 = 254;

fn has_room(values: &[u16]) -> bool
    ensures { IsTrue result ↔ (5 ≤ length values.now) }
{
    values.len() >= NUMBERS
}

// Kind, errno, device, phase and taken.
fn numbers(outcome: Outcome) -> [u16; NUMBERS]
    ensures { result ≡ five_numbers outcome }
{
    let Values {
        kind,
        errno,
        device,
        phase,
        taken,
    } = outcome.values();
    [
        u16::from(kind),
        errno,
        u16::from(device),
        u16::from(phase),
        taken,
    ]
}

// Copies the numbers of an outcome to the front of `values`.
fn write_numbers(outcome: Outcome, values: &mut [u16])
    requires { 5 ≤ length values.old }
    ensures { values.new ≡ five_numbers outcome ++ drop 5 values.old }
{
    values[..NUMBERS].copy_from_slice(&numbers(outcome));
}

// The number of a refusal, or 255 for want of memory.
fn fault_number(fault: RunFault) -> u8
    ensures { result ≡ number_of_fault fault }
{
    match fault {
        RunFault::Program { fault } => Refusal::from(fault).number,
        RunFault::Memory => 255,
    }
}

// Writes the numbers of an outcome and answers 0; or answers the number of a fault and writes nothing.
fn tell(answer: Result<Outcome, RunFault>, values: &mut [u16]) -> u8
    requires { 5 ≤ length values.old }
    ensures { OutcomeTold answer values.old values.new result }
{
    match answer {
        Ok(outcome) => {
            write_numbers(outcome, values);
            0
        }
        Err(fault) => fault_number(fault),
    }
}

// The outcome that a run reports, or its fault.
fn run_outcome(ran: Result<Report, RunFault>) -> Result<Outcome, RunFault>
    ensures { result ≡ outcome_in ran }
{
    match ran {
        Ok(report) => Ok(report.outcome()),
        Err(fault) => Err(fault),
    }
}

// Runs the board of a board file with the cells of a fault sheet. With room for five numbers in `values` it answers 0 and writes
// the outcome's there; or it answers the number of the refusal, or 255 for want of memory, and writes nothing. Without that room
// it answers 254 and runs nothing.
#[unsafe(no_mangle)]
pub extern "C" fn fuldrik_run(heap: Global, file: &[u8], sheet: &[u8], values: &mut [u16]) -> u8
    ensures short { length values.old < 5 → (result ≡ 254) × (values.new ≡ values.old) }
    ensures told { 5 ≤ length values.old → RunTold file.now sheet.now values.old values.new result }
    ensures worked { RunsWorked }
{
    if !has_room(values) {
        return NO_ROOM;
    }
    tell(run_outcome(run(heap, file, sheet)), values)
}

// How that run would end with this byte in the cell of a device for a level, answered as a run is. The sheet is as it was in
// every case.
#[unsafe(no_mangle)]
pub extern "C" fn fuldrik_what_if(
    heap: Global,
    file: &[u8],
    sheet: &mut [u8],
    device: u8,
    level: u8,
    byte: u8,
    values: &mut [u16],
) -> u8
    ensures same { sheet.new ≡ sheet.old }
    ensures short { length values.old < 5 → (result ≡ 254) × (values.new ≡ values.old) }
    ensures told { 5 ≤ length values.old → AskTold file.now sheet.old device level byte values.old values.new result }
{
    if !has_room(values) {
        return NO_ROOM;
    }
    tell(what_if(heap, file, sheet, device, level, byte), values)
}
