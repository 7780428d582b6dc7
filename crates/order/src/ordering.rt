// The order of a table's devices.
mod placing;

ghost use Rattle.std.specs.Prelude.{◌≡◌, length, take};
ghost use Rattle.order.specs.Orders.{Inside, Once, SuperiorsEarlier, NoneLess};
ghost use Rattle.order.specs.Tables.{Above};

use crate::superiors::Superiors;

// All devices of a table in one order, which only `Superiors::order` makes: each of them once, each superior before its
// dependents, and at each place the least-numbered device that can stand there.
#[derive(Clone, Copy)]
pub struct Order {
    superiors: Superiors,
    places: [u8; 64],
    ghost long: { length places ≡ 64 },
    ghost inside: { Inside superiors.count (take superiors.count places) },
    ghost once: { Once superiors.count (take superiors.count places) },
    ghost earlier: { SuperiorsEarlier superiors.count (Above superiors.sets) (take superiors.count places) },
    ghost least: { NoneLess superiors.count (Above superiors.sets) (take superiors.count places) },
}

// No order puts each superior before its dependents: from this device, and from none below it, some chain of superiors
// never ends.
#[derive(Clone, Copy, PartialEq, Eq, Debug)]
pub struct Circle {
    pub device: u8,
}
