// The calls of an engine without their tickets.
ghost use Rattle.std.specs.Prelude.{◌≡◌, length};
ghost use Rattle.history.specs.declared.answer.Answer.TheVariants.{Opened, Stepped, Heard, Closed, Written, Seen};
ghost use Rattle.history.specs.declared.call.Call.TheVariants.{Open, Step, Alarm, Close, Put, Look};
ghost use Rattle.order.specs.Answers.{devices};
ghost use Rattle.engine.specs.Answers.{EntryAt};
ghost use Rattle.engine.specs.States.{Says, Becomes, answered, if_awake, if_known};

use crate::banks::write;
use crate::engine::Engine;
use crate::engine::moves::{met, rising};
use bank::bank::Bank;
use history::answer::{AlarmAnswer, StepAnswer};
use history::entry::Entry;
use history::fault::EngineFault;
use history::outcome::Outcome;
use history::standing::Standing;

impl<B: Bank> Engine<B> {
    // An opening and a put are for an engine that is awake.
    fn awake(&self) -> Result<(), EngineFault>
        ensures { result ≡ if_awake self.now.standing }
    {
        match self.standing {
            Standing::Awake => Ok(()),
            _ => Err(EngineFault::InAttempt),
        }
    }

    // A number, if it is a device's.
    fn known(&self, device: u8) -> Result<u8, EngineFault>
        ensures { result ≡ if_known (devices self.now.order) self.now.lowered device }
    {
        let _seen = self.seen(device)?;
        Ok(device)
    }

    // Gives up the journal of the attempt before.
    pub(crate) fn begin(&mut self) -> Result<(), EngineFault>
        ensures answer { Says ⟦<B as Bank>⟧ Open self.old (answered (λ _. Opened) result) }
        ensures after { Becomes ⟦<B as Bank>⟧ Open self.old self.new }
    {
        self.awake()?;
        self.journal.clear();
        self.standing = Standing::GoingDown { alarm: None };
        Ok(())
    }

    // An alarm that is kept turns the attempt round before the next device is lowered.
    pub(crate) fn go(&mut self) -> Result<StepAnswer, EngineFault>
        ensures answer { Says ⟦<B as Bank>⟧ Step self.old (answered Stepped result) }
        ensures after { Becomes ⟦<B as Bank>⟧ Step self.old self.new }
    {
        match self.standing {
            Standing::Awake => Err(EngineFault::NothingOpen),
            Standing::Asleep | Standing::Landed { outcome: _ } => Err(EngineFault::AtRest),
            Standing::ComingUp { outcome } => {
                self.raise_last(outcome)?;
                Ok(StepAnswer::Raised)
            }
            Standing::GoingDown { alarm: None } => self.lower_next(),
            Standing::GoingDown { alarm } => {
                self.standing = rising(self.cut_short(alarm), self.lowered);
                Ok(StepAnswer::Alarmed)
            }
        }
    }

    // The first alarm on the way down is kept, and turns the attempt round at the next step. One that comes asleep turns it round
    // at once.
    pub(crate) fn hear(&mut self, device: u8) -> Result<AlarmAnswer, EngineFault>
        ensures answer { Says ⟦<B as Bank>⟧ (Alarm device) self.old (answered Heard result) }
        ensures after { Becomes ⟦<B as Bank>⟧ (Alarm device) self.old self.new }
    {
        let alarm = Some(self.known(device)?);
        match self.standing {
            Standing::Awake => return Err(EngineFault::NothingOpen),
            Standing::GoingDown { alarm: None } => {
                self.standing = Standing::GoingDown { alarm };
            }
            Standing::Asleep => {
                let taken = self.lowered;
                self.standing = rising(Outcome::Slept { alarm, taken }, taken);
            }
            _ => return Ok(AlarmAnswer::Ignored),
        }
        Ok(AlarmAnswer::Kept)
    }

    // The outcome is settled before what is still lowered is raised.
    #[tactic(auto, using(crate::proofs::Raisings::left_raised, crate::proofs::Raisings::left_recorded))]
    pub(crate) fn finish(&mut self) -> Result<Outcome, EngineFault>
        ensures answer { Says ⟦<B as Bank>⟧ Close self.old (answered Closed result) }
        ensures after { Becomes ⟦<B as Bank>⟧ Close self.old self.new }
    {
        let outcome = self.outcome().ok_or(EngineFault::NothingOpen)?;
        self.standing = rising(outcome, self.lowered);
        while self.lowered > 0 {
            self.raise_last(outcome)?;
        }
        self.standing = Standing::Awake;
        Ok(outcome)
    }

    // A number of no device is refused first, and then a put in an attempt.
    pub(crate) fn set(&mut self, device: u8, word: u32) -> Result<(), EngineFault>
        ensures answer { Says ⟦<B as Bank>⟧ (Put device word) self.old (answered (λ _. Written) result) }
        ensures after { Becomes ⟦<B as Bank>⟧ (Put device word) self.old self.new }
    {
        let device = self.known(device)?;
        self.awake()?;
        let written = write(&mut self.bank, &self.order, device, word);
        met(written, self.lowered)
    }

    // Allowed in an attempt too.
    pub(crate) fn seen(&self, device: u8) -> Result<(u8, u32, u8), EngineFault>
        ensures answer { Says ⟦<B as Bank>⟧ (Look device) self.now (answered (λ seen. Seen seen.0 seen.1 seen.2) result) }
    {
        met(self.bank.look(device), self.lowered)
    }

    // How many entries the journal has.
    pub(crate) fn noted(&self) -> usize
        ensures { result ≡ length self.now.journal.items }
    {
        self.journal.len()
    }

    // The entry of this index.
    pub(crate) fn noted_at(&self, index: usize) -> Result<Entry, EngineFault>
        ensures { EntryAt self.now.journal.items index result }
    {
        self.journal.get(index).copied().ok_or(EngineFault::NoEntry)
    }
}
