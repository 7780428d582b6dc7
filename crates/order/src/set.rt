// Sets of devices below 64, one bit for each.
ghost use Rattle.std.specs.Prelude.{ℕ, ◌<◌, Decides, MatchBool};
ghost use Rattle.order.specs.Sets.{In, With};

#[derive(Clone, Copy)]
pub(crate) struct DeviceSet {
    bits: u64,
}

impl DeviceSet {
    pub(crate) fn empty() -> DeviceSet
        ensures { (e : ℕ) → In result e → ⊥ }
    {
        DeviceSet { bits: 0 }
    }

    pub(crate) fn has(self, device: u8) -> bool
        requires { device < 64 }
        ensures { Decides result (In self device) }
    {
        (self.bits >> device) & 1 == 1
    }

    pub(crate) fn with(self, device: u8) -> DeviceSet
        requires { device < 64 }
        ensures { With self result device }
    {
        DeviceSet {
            bits: self.bits | 1 << device,
        }
    }

    // Whether all of this set is in `other`; if not, some device of it is missing there.
    pub(crate) fn within(self, other: DeviceSet) -> bool
        ensures { MatchBool result ((e : ℕ) → In self e → In other e) ((e : ℕ) × (e < 64) × In self e × (In other e → ⊥)) }
    {
        self.bits & other.bits == self.bits
    }
}
