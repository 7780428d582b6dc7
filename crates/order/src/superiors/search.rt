// Which device comes next, and which is left.
ghost use Rattle.std.specs.Prelude.{ℕ, true, false, ◌<◌, ◌⊎◌, MatchOption};
ghost use Rattle.order.specs.Sets.{In};
ghost use Rattle.order.specs.Tables.{Free, Held};
ghost use Rattle.order.specs.Orders.{Least};

use crate::set::DeviceSet;
use crate::superiors::Superiors;

// The least number below `count` that passes a test.
fn least<F: Fn(u8) -> bool>(count: u8, test: F) -> Option<u8>
    requires { (d : ℕ) → d < count → F.pre test d }
    ensures { MatchOption result ((d : ℕ) → d < count → F.post test d false) (λ d. (d < count) × F.post test d true × ((e : ℕ) → e < d → F.post test e false)) }
{
    for number in 0..count {
        if test(number) {
            return Some(number);
        }
    }
    None
}

impl Superiors {
    // The least device that is not placed, while all its superiors are; where there is none, each device is placed or
    // held back by a superior that is not.
    pub(crate) fn next(&self, placed: DeviceSet) -> Option<u8>
        ensures { MatchOption result ((d : ℕ) → d < self.now.count → In placed d ⊎ Held self.now.sets placed d) (λ d. Least (Free self.now.count self.now.sets placed) d) }
    {
        least(self.count, |device| {
            !placed.has(device) && self.sets[usize::from(device)].within(placed)
        })
    }

    // The least device that is not placed.
    pub(crate) fn least_absent(&self, placed: DeviceSet) -> Option<u8>
        ensures { MatchOption result ((d : ℕ) → d < self.now.count → In placed d) (λ d. (d < self.now.count) × (In placed d → ⊥) × ((e : ℕ) → e < d → In placed e)) }
    {
        least(self.count, |device| !placed.has(device))
    }
}
