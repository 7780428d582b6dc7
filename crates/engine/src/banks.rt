// One lowering and one raising of the schedule, on a bank.
ghost use Rattle.std.specs.Prelude.{◌≡◌, ◌+◌, ◌<◌, length};
ghost use Rattle.order.specs.Answers.{devices};
ghost use Rattle.history.specs.Schedule.{full, level_sum};
ghost use Rattle.history.specs.Keeping.{Scheduled};
ghost use Rattle.engine.specs.Moving.{Undone, Made, Put};

use crate::turns::Turn;
use bank::bank::Bank;
use bank::fault::BankFault;
use order::ordering::Order;

// Undoes a lowering, the last one that stands, and answers the bank's code.
pub(crate) fn undo<B: Bank>(bank: &mut B, order: &Order, lowering: u16) -> Result<i16, BankFault>
    requires scheduled { Scheduled (devices order.now) (B.kind.devices (B.model bank.old)) }
    requires last { level_sum (B.kind.devices (B.model bank.old)) ≡ lowering + 1 }
    ensures { Undone B.kind (devices order.now) (B.model bank.old) (B.model bank.new) lowering result }
{
    let turn = Turn::of(order.devices(), lowering);
    bank.raise(turn.device)
}

// Makes the next lowering, unless its device is hindered.
pub(crate) fn make<B: Bank>(bank: &mut B, order: &Order, lowering: u16) -> Result<i16, BankFault>
    requires scheduled { Scheduled (devices order.now) (B.kind.devices (B.model bank.old)) }
    requires next { level_sum (B.kind.devices (B.model bank.old)) ≡ lowering }
    requires more { lowering < full (devices order.now) }
    ensures { Made B.kind (devices order.now) (B.model bank.old) (B.model bank.new) lowering result }
{
    let turn = Turn::of(order.devices(), lowering);
    bank.lower(turn.device)
}

// Puts a word for a device of the order, with every device at level 0.
pub(crate) fn write<B: Bank>(
    bank: &mut B,
    order: &Order,
    device: u8,
    word: u32,
) -> Result<(), BankFault>
    requires scheduled { Scheduled (devices order.now) (B.kind.devices (B.model bank.old)) }
    requires none { level_sum (B.kind.devices (B.model bank.old)) ≡ 0 }
    requires known { device < length (devices order.now) }
    ensures { Put B.kind (devices order.now) (B.model bank.old) (B.model bank.new) device word result }
{
    let _order = order;
    bank.put(device, word)
}
