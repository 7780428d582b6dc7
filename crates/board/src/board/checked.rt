// A board file that keeps all rules.
mod making;

ghost use Rattle.board.specs.Wiring.{Wired};

use crate::records::Records;
use order::ordering::Order;

// The bytes of a board file that keeps all rules, and the order of its devices, so that its board can be read without a second
// test. Only `Checked::new` makes it.
#[derive(Clone, Copy)]
pub struct Checked<'a> {
    records: Records<'a>,
    order: Order,
    ghost wired: { ∥ Wired records.frame.file.now order.superiors ∥₁ },
}
