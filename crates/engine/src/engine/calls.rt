// The calls of an engine.
ghost use Rattle.std.specs.Prelude.{◌≡◌, ◌*◌, ◌≤◌, IfOk, IfErr, length};
ghost use Rattle.history.specs.declared.answer.Answer.TheVariants.{Opened, Stepped, Heard, Written, Seen};
ghost use Rattle.history.specs.declared.call.Call.TheVariants.{Open, Step, Alarm, Close, Put, Look};
ghost use Rattle.history.specs.Attempts.{stage_of};
ghost use Rattle.engine.specs.States.{Says, Becomes, KeepsLaw, answered};
ghost use Rattle.order.specs.Answers.{devices};
ghost use Rattle.history.specs.Schedule.{full};
ghost use Rattle.engine.specs.Answers.{closing, EntryAt, TellsStage, TellsJournal, TellsCount, TellsEntry};

use crate::engine::Engine;
use crate::ticket::Ticket;
use bank::bank::Bank;
use history::answer::{AlarmAnswer, StepAnswer};
use history::entry::Entry;
use history::fault::EngineFault;
use history::outcome::Outcome;
use history::standing::Stage;

// A close that is refused, with the ticket that it was given.
#[derive(Drop)]
pub struct Unclosed {
    pub fault: EngineFault,
    pub ticket: Ticket,
}

impl<B: Bank> Engine<B> {
    // Begins an attempt, and hands out its ticket. Refused in an attempt.
    pub fn open(&mut self) -> Result<Ticket, EngineFault>
        ensures answer { Says ⟦<B as Bank>⟧ Open self.old (answered (λ _. Opened) result) }
        ensures after { Becomes ⟦<B as Bank>⟧ Open self.old self.new }
        ensures law { KeepsLaw ⟦<B as Bank>⟧ Open self.old (answered (λ _. Opened) result) self.new }
        ensures ticket { IfOk result (λ ticket. ticket.number ≡ 1) }
    {
        self.begin()?;
        Ok(Ticket::new())
    }

    // One lowering, one raising, or the turn between them. Refused with nothing open, asleep, and where the attempt has landed.
    pub fn step(&mut self) -> Result<StepAnswer, EngineFault>
        ensures answer { Says ⟦<B as Bank>⟧ Step self.old (answered Stepped result) }
        ensures after { Becomes ⟦<B as Bank>⟧ Step self.old self.new }
        ensures law { KeepsLaw ⟦<B as Bank>⟧ Step self.old (answered Stepped result) self.new }
    {
        self.go()
    }

    // A device asks that the board wake. Refused where there is no such device, and with nothing open.
    pub fn alarm(&mut self, device: u8) -> Result<AlarmAnswer, EngineFault>
        ensures answer { Says ⟦<B as Bank>⟧ (Alarm device) self.old (answered Heard result) }
        ensures after { Becomes ⟦<B as Bank>⟧ (Alarm device) self.old self.new }
        ensures law { KeepsLaw ⟦<B as Bank>⟧ (Alarm device) self.old (answered Heard result) self.new }
    {
        self.hear(device)
    }

    // Raises whatever is still lowered, ends the attempt and takes the ticket. Refused with nothing open; the ticket then comes
    // back.
    pub fn close(&mut self, ticket: Ticket) -> Result<Outcome, Unclosed>
        ensures answer { Says ⟦<B as Bank>⟧ Close self.old (closing result) }
        ensures after { Becomes ⟦<B as Bank>⟧ Close self.old self.new }
        ensures law { KeepsLaw ⟦<B as Bank>⟧ Close self.old (closing result) self.new }
        ensures ticket { IfErr result (λ unclosed. unclosed.ticket ≡ ticket) }
    {
        match self.finish() {
            Ok(outcome) => {
                ticket.take();
                Ok(outcome)
            }
            Err(fault) => Err(Unclosed { fault, ticket }),
        }
    }

    // Another working word for a device. Refused where there is no such device, and in an attempt.
    pub fn put(&mut self, device: u8, word: u32) -> Result<(), EngineFault>
        ensures answer { Says ⟦<B as Bank>⟧ (Put device word) self.old (answered (λ _. Written) result) }
        ensures after { Becomes ⟦<B as Bank>⟧ (Put device word) self.old self.new }
        ensures law { KeepsLaw ⟦<B as Bank>⟧ (Put device word) self.old (answered (λ _. Written) result) self.new }
    {
        self.set(device, word)
    }

    // Level, working word and hindrance of a device. Refused where there is no such device.
    pub fn look(&self, device: u8) -> Result<(u8, u32, u8), EngineFault>
        ensures answer { Says ⟦<B as Bank>⟧ (Look device) self.now (answered (λ seen. Seen seen.0 seen.1 seen.2) result) }
        ensures law { KeepsLaw ⟦<B as Bank>⟧ (Look device) self.now (answered (λ seen. Seen seen.0 seen.1 seen.2) result) self.now }
    {
        self.seen(device)
    }

    // Where the engine stands.
    pub fn stage(&self) -> Stage
        ensures stage { result ≡ stage_of self.now.standing }
        ensures told { TellsStage ⟦<B as Bank>⟧ self.now result }
    {
        self.standing.stage()
    }

    // The journal, the oldest entry first. It never has more than two entries for each lowering of the schedule.
    pub fn entries(&self) -> &[Entry]
        ensures entries { result.now ≡ self.now.journal.items }
        ensures most { length result.now ≤ 2 * full (devices self.now.order) }
        ensures told { TellsJournal ⟦<B as Bank>⟧ self.now result.now }
    {
        &self.journal
    }

    // The number of the journal's entries.
    pub fn entry_count(&self) -> usize
        ensures count { result ≡ length self.now.journal.items }
        ensures told { TellsCount ⟦<B as Bank>⟧ self.now result }
    {
        self.noted()
    }

    // An entry of the journal, the oldest first. Refused where the index is not below their number.
    pub fn entry(&self, index: usize) -> Result<Entry, EngineFault>
        ensures entry { EntryAt self.now.journal.items index result }
        ensures told { TellsEntry ⟦<B as Bank>⟧ self.now index result }
    {
        self.noted_at(index)
    }
}
