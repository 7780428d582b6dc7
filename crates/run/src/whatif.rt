// What-ifs: how a run would end with another byte in one cell of its sheet.
ghost use Rattle.std.specs.Prelude.{◌≡◌, ◌<◌, length, set, slice_index_or, MatchResult};
ghost use Rattle.board.specs.Checking.{file_of};
ghost use Rattle.run.specs.Asking.{Asks, CanAsk, ExactAnswer, WritesRightCell, OutcomeOf, RefusesAsking, cell};
ghost use Rattle.run.specs.Files.{Fit};

use crate::files::check_files;
use crate::running::run_right;
use board::board::checked::Checked;
use history::outcome::Outcome;
use program::fault::{ProgramFault, RunFault};
use std::alloc::Global;

// A sheet that is lent while one of its cells has another byte. The old byte comes back when the guard is dropped.
struct CellGuard<'a> {
    cells: &'a mut [u8],
    place: usize,
    old: u8,
}

impl<'a> CellGuard<'a> {
    // Writes a byte into the cell at a place.
    fn new(cells: &'a mut [u8], place: usize, byte: u8) -> CellGuard<'a>
        requires { place < length cells.old }
        ensures same_reference { result.cells.ghost_name ≡ cells.entry.ghost_name }
        ensures written { result.cells.now ≡ set cells.old place byte }
        ensures place { result.place ≡ place }
        ensures old { result.old ≡ slice_index_or cells.old place 0 }
    {
        let old = cells[place];
        cells[place] = byte;
        CellGuard { cells, place, old }
    }

    // The sheet as it is now.
    fn sheet(&self) -> &[u8]
        ensures { result.now ≡ self.now.cells.now }
    {
        self.cells
    }
}

impl Drop for CellGuard<'_> {
    fn drop(self)
        requires { self.place < length self.cells.now }
        ensures { self.exit.0.now ≡ set self.entry.cells.now self.entry.place self.entry.old }
    {
        let CellGuard { cells, place, old } = self;
        cells[place] = old;
    }
}

// The board file, and the place of the cell that is asked for.
fn cell_of<'a>(
    board: &'a [u8],
    sheet: &[u8],
    device: u8,
    level: u8,
) -> Result<(Checked<'a>, usize), ProgramFault>
    ensures { MatchResult result (λ found. CanAsk board.now sheet.now device level × (file_of found.0 ≡ board.now) × (found.1 ≡ cell device level)) (RefusesAsking board.now sheet.now device level) }
{
    let board = check_files(board, sheet)?;
    if usize::from(device) >= board.order().devices().len() {
        return Err(ProgramFault::NoDevice { device });
    }
    if !(1..=4).contains(&level) {
        return Err(ProgramFault::NoLevel);
    }
    let place = 4 * usize::from(device) + usize::from(level) - 1;
    Ok((board, place))
}

// The outcome of a run of files that are not refused.
fn outcome_of(heap: Global, board: &Checked<'_>, sheet: &[u8]) -> Result<Outcome, RunFault>
    requires { Fit (file_of board.now) sheet.now }
    ensures { OutcomeOf (file_of board.now) sheet.now result }
{
    let report = run_right(heap, board, sheet)?;
    Ok(report.outcome())
}

// The outcome of a run with this byte in the cell.
#[tactic(auto, using(crate::proofs::Cells::restored, crate::proofs::Asking::answered))]
fn ask(
    heap: Global,
    board: &[u8],
    sheet: &mut [u8],
    device: u8,
    level: u8,
    byte: u8,
) -> Result<Outcome, RunFault>
    ensures same { sheet.new ≡ sheet.old }
    ensures answer { Asks board.now sheet.old device level byte result }
{
    let (board, place) = cell_of(board, sheet, device, level)?;
    let guard = CellGuard::new(sheet, place, byte);
    outcome_of(heap, &board, guard.sheet())
}

// How a run would end with this byte in the cell of a device for a level. On every way out the sheet is as it was. Refused where the
// run is, then where there is no such device, then where there is no such level.
#[tactic(auto, using(crate::proofs::Exact::exact_answer, crate::proofs::Cells::fits))]
pub fn what_if(
    heap: Global,
    board: &[u8],
    sheet: &mut [u8],
    device: u8,
    level: u8,
    byte: u8,
) -> Result<Outcome, RunFault>
    ensures same { sheet.new ≡ sheet.old }
    ensures answer { Asks board.now sheet.old device level byte result }
    ensures exact { ExactAnswer board.now sheet.old device level result }
    ensures cell { WritesRightCell board.now sheet.old device level byte }
{
    ask(heap, board, sheet, device, level, byte)
}
