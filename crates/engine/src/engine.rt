// An engine over any bank.
mod acts;
pub mod calls;
pub mod making;
mod moves;
pub mod playing;

ghost use Rattle.std.specs.Prelude.{◌≡◌, ◌*◌, ◌≤◌, length, vec_capacity};
ghost use Rattle.order.specs.Answers.{devices};
ghost use Rattle.history.specs.Schedule.{full, level_sum};
ghost use Rattle.history.specs.Keeping.{Scheduled, InRange, most_entries};

use bank::bank::Bank;
use history::entry::Entry;
use history::standing::Standing;
use order::ordering::Order;

// The order of a board, and a bank with as many devices, which nobody else calls.
#[derive(Drop)]
pub struct Engine<B: Bank> {
    bank: B,
    order: Order,
    standing: Standing,
    // How many lowerings stand: the sum of all levels.
    lowered: u16,
    journal: Vec<Entry>,
    ghost adds_up: { lowered ≡ level_sum (B.kind.devices (B.model bank)) },
    ghost scheduled: { Scheduled (devices order) (B.kind.devices (B.model bank)) },
    ghost in_range: { InRange (full (devices order)) standing lowered },
    ghost within: { length journal.items ≤ most_entries (full (devices order)) standing lowered },
    ghost reserved: { 2 * full (devices order) ≤ vec_capacity journal },
}
