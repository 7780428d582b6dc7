// How the order is found, and how it is read.
ghost use Rattle.std.specs.Prelude.{◌≡◌, ℕ, ◌<◌, ◌⊎◌, MatchOption};
ghost use Rattle.order.specs.Sets.{In, With};
ghost use Rattle.order.specs.Tables.{Free, Held};
ghost use Rattle.order.specs.Orders.{IsTheOrder, Least};
ghost use Rattle.order.specs.Answers.{Superior, devices, Answers, Exact};

use crate::ordering::{Circle, Order};
use crate::set::DeviceSet;
use crate::superiors::Superiors;

impl Superiors {
    // The device that comes next, and the placed ones with it.
    fn place_next(&self, placed: DeviceSet) -> Option<(u8, DeviceSet)>
        ensures { MatchOption result ((d : ℕ) → d < self.now.count → In placed d ⊎ Held self.now.sets placed d) (λ next. Least (Free self.now.count self.now.sets placed) next.0 × With placed next.1 next.0) }
    {
        let device = self.next(placed)?;
        Some((device, placed.with(device)))
    }

    // The order of the table's devices, or why there is none.
    pub fn order(&self) -> Result<Order, Circle>
        ensures answers { Answers self.now result }
        ensures exact { Exact self.now result }
    {
        let mut places = [0; 64];
        let mut placed = DeviceSet::empty();
        for place in &mut places {
            let Some((device, more)) = self.place_next(placed) else {
                break;
            };
            *place = device;
            placed = more;
        }
        match self.least_absent(placed) {
            Some(device) => Err(Circle { device }),
            None => Ok(Order {
                superiors: *self,
                places,
            }),
        }
    }
}

impl Order {
    // The places that are taken.
    fn taken(&self) -> &[u8]
        ensures { result.now ≡ devices self.now }
    {
        &self.places[..usize::from(self.superiors.count())]
    }

    // The devices, the first in the order first. Whoever has an order has each device of its table once, each superior
    // before its dependents, and at each place the least that can stand there.
    pub fn devices(&self) -> &[u8]
        ensures value { result.now ≡ devices self.now }
        ensures ordered { IsTheOrder self.now.superiors.count (Superior self.now.superiors) result.now }
    {
        self.taken()
    }

    // The table that this is the order of.
    pub fn superiors(&self) -> &Superiors
        ensures { result.now ≡ self.now.superiors }
    {
        &self.superiors
    }
}
