// A run: from the bytes of a board file and of a fault sheet to what is told of it.
ghost use Rattle.board.specs.Checking.{file_of};
ghost use Rattle.run.specs.Files.{Fit, Starts};
ghost use Rattle.run.specs.Running.{ReportsOver, Runs, ExactRun};

use crate::files::{bank_of, check_files};
use attempt::attempt::Attempt;
use bank::bank::Bank;
use board::board::Board;
use board::board::checked::Checked;
use lines::report::Report;
use program::fault::RunFault;
use std::alloc::Global;

// The report of an attempt of an engine of a board's order over a bank.
fn report_over<B: Bank + Drop>(heap: Global, board: Board, bank: B) -> Result<Report, RunFault>
    ensures { ReportsOver B.kind (B.model bank) board result }
{
    let order = *board.order();
    let attempt = Attempt::run(heap, order, bank)?;
    Ok(Report::new(board, attempt).unwrap())
}

// A run of files that are not refused.
#[tactic(auto, using(crate::proofs::Attempting::has_run))]
pub(crate) fn run_right(heap: Global, board: &Checked<'_>, sheet: &[u8]) -> Result<Report, RunFault>
    requires { Fit (file_of board.now) sheet.now }
    ensures { Runs (file_of board.now) sheet.now result }
{
    let board = board.board(heap)?;
    let bank = bank_of(heap, &board, sheet)?;
    report_over(heap, board, bank)
}

fn run_files(heap: Global, board: &[u8], sheet: &[u8]) -> Result<Report, RunFault>
    ensures { Runs board.now sheet.now result }
{
    let board = check_files(board, sheet)?;
    run_right(heap, &board, sheet)
}

// Runs the board of a board file with the cells of a fault sheet: an engine is opened, steps until it is asleep or landed, and is
// closed. Refused where the board file is, and then where the sheet has not a cell for each device and level. Want of memory is
// met only after all tests.
#[tactic(auto, using(crate::proofs::Exact::exact_run))]
pub fn run(heap: Global, board: &[u8], sheet: &[u8]) -> Result<Report, RunFault>
    ensures runs { Runs board.now sheet.now result }
    ensures exact { ExactRun board.now sheet.now result }
    ensures starts { Starts board.now sheet.now }
{
    run_files(heap, board, sheet)
}
