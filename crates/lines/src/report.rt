// What is told of a run.
mod entries;
mod outcomes;

ghost use Rattle.std.specs.Prelude.{◌≡◌, ◌≢◌, ◌<◌, ◌≤◌, MatchOption, length, vec_len};
ghost use Rattle.lines.specs.Lines.{name_of};

use attempt::attempt::Attempt;
use board::board::Board;
use history::entry::Entry;
use history::outcome::Outcome;

// A board, and an attempt of an engine with as many devices.
#[derive(Drop)]
pub struct Report {
    board: Board,
    attempt: Attempt,
    ghost same: { attempt.devices ≡ board.order.superiors.count },
}

impl Report {
    // None where the two differ in their number of devices.
    pub fn new(board: Board, attempt: Attempt) -> Option<Report>
        ensures { MatchOption result (attempt.devices ≢ board.order.superiors.count) (λ report. (report.board ≡ board) × (report.attempt ≡ attempt)) }
    {
        if usize::from(attempt.devices()) != board.devices().len() {
            return None;
        }
        Some(Report { board, attempt })
    }

    // The board, which has the names.
    pub fn board(&self) -> &Board
        ensures { result.now ≡ self.now.board }
    {
        &self.board
    }

    // The journal, the oldest entry first.
    pub fn journal(&self) -> &[Entry]
        ensures { result.now ≡ self.now.attempt.journal.items }
    {
        self.attempt.journal()
    }

    pub fn outcome(&self) -> Outcome
        ensures { result ≡ self.now.attempt.outcome }
    {
        self.attempt.outcome()
    }

    // The name of the device of this number.
    fn name(&self, device: u8) -> &[u8]
        requires { device < vec_len self.now.board.devices }
        ensures text { result.now ≡ name_of self.now.board.devices.items device }
        ensures most { length result.now ≤ 8 }
    {
        self.board.devices()[usize::from(device)].name.as_bytes()
    }
}
