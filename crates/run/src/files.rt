// The two files of a run.
ghost use Rattle.std.specs.Prelude.{◌≡◌, IfOk, MatchResult};
ghost use Rattle.board.specs.Checking.{file_of};
ghost use Rattle.run.specs.Files.{Fit, RefusesFiles, BankOf, held, parts_in};

use bank::bank::Bank;
use board::board::Board;
use board::board::checked::Checked;
use boardbank::{BoardBank, board_bank};
use program::fault::{ProgramFault, RunFault};
use std::alloc::{AllocError, Global};

// Tests both files, the board file first. No memory is needed.
pub(crate) fn check_files<'a>(board: &'a [u8], sheet: &[u8]) -> Result<Checked<'a>, ProgramFault>
    ensures { MatchResult result (λ checked. Fit board.now sheet.now × (file_of checked ≡ board.now)) (RefusesFiles board.now sheet.now) }
{
    let checked = Checked::new(board)?;
    if sheet.len() != 4 * checked.order().devices().len() {
        return Err(ProgramFault::Sheet);
    }
    Ok(checked)
}

// The words of a board's devices.
fn words_of(heap: Global, board: &Board) -> Result<Vec<u32>, AllocError>
    ensures { IfOk result (λ words. words.items ≡ held board.now) }
{
    board
        .devices()
        .iter()
        .map(|device| device.word)
        .collect(heap)
}

// The bank of a board, with the cells of a sheet.
pub(crate) fn bank_of(heap: Global, board: &Board, sheet: &[u8]) -> Result<BoardBank, RunFault>
    ensures { BankOf ⟦<BoardBank as Bank>⟧.model (parts_in board.now sheet.now) result }
{
    let words = words_of(heap, board)?;
    let cells = sheet.to_vec(heap)?;
    let kinds = board.kinds();
    let (registers, others) = words.split_at(usize::from(kinds.register));
    let (buses, quiets) = others.split_at(usize::from(kinds.bus));
    Ok(board_bank(heap, registers, buses, quiets, cells)?)
}
