// The calls on a table of superiors.
ghost use Rattle.std.specs.Prelude.{◌≡◌, ◌<◌, ◌≤◌, Decides, MatchResult};
ghost use Rattle.order.specs.Answers.{Superior, Made, Added};

use crate::set::DeviceSet;
use crate::superiors::{NoDevice, Superiors};

impl Superiors {
    // `count` devices, none of them with a superior yet; or nothing, unless there are 1 to 64.
    pub fn new(count: u8) -> Option<Superiors>
        ensures { Made count result }
    {
        if count == 0 || count > 64 {
            return None;
        }
        let sets = [DeviceSet::empty(); 64];
        Some(Superiors { count, sets })
    }

    pub fn count(&self) -> u8
        ensures { result ≡ self.now.count }
    {
        self.count
    }

    // The device of this number.
    fn device(&self, number: u8) -> Result<u8, NoDevice>
        ensures { MatchResult result (λ device. (device ≡ number) × (number < self.now.count)) (λ missing. (missing.number ≡ number) × (self.now.count ≤ number)) }
    {
        if number < self.count {
            Ok(number)
        } else {
            Err(NoDevice { number })
        }
    }

    // Makes one device a superior of another, which it may be already; or tells which number is no device.
    pub fn add(&mut self, superior: u8, dependent: u8) -> Result<(), NoDevice>
        ensures { Added self.old self.new superior dependent result }
    {
        let superior = self.device(superior)?;
        let dependent = self.device(dependent)?;
        let set = &mut self.sets[usize::from(dependent)];
        *set = set.with(superior);
        Ok(())
    }

    // Whether one device is a superior of another.
    pub fn has(&self, superior: u8, dependent: u8) -> bool
        ensures { Decides result (Superior self.now superior dependent) }
    {
        superior < self.count
            && dependent < self.count
            && self.sets[usize::from(dependent)].has(superior)
    }
}
