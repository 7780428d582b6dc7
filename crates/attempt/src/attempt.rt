// An attempt that is over.
mod running;

ghost use Rattle.std.specs.Prelude.{◌≡◌};
ghost use Rattle.attempt.specs.Keeping.{AreKnown, IsKnown};

use history::entry::Entry;
use history::outcome::Outcome;

// An attempt of an engine that was just made: an open, steps until the engine was asleep or landed, and a close.
#[derive(Drop)]
pub struct Attempt {
    journal: Vec<Entry>,
    outcome: Outcome,
    // How many devices the engine has.
    devices: u8,
    // How many calls of the engine there were, its making counted.
    calls: u16,
    ghost known: { AreKnown devices journal.items },
    ghost outcome_known: { IsKnown devices outcome },
}

impl Attempt {
    // The journal after the close, the oldest entry first.
    pub fn journal(&self) -> &[Entry]
        ensures { result.now ≡ self.now.journal.items }
    {
        &self.journal
    }

    pub fn outcome(&self) -> Outcome
        ensures { result ≡ self.now.outcome }
    {
        self.outcome
    }

    // How many devices the engine has.
    pub fn devices(&self) -> u8
        ensures { result ≡ self.now.devices }
    {
        self.devices
    }

    // How many calls of the engine there were, its making counted.
    pub fn calls(&self) -> u16
        ensures { result ≡ self.now.calls }
    {
        self.calls
    }
}
