// What the calls of an engine do to its bank.
ghost use Rattle.std.specs.Prelude.{◌≡◌, ◌+◌, ◌<◌, Ok, None};
ghost use Rattle.order.specs.Answers.{devices};
ghost use Rattle.history.specs.Schedule.{full};
ghost use Rattle.history.specs.declared.answer.Answer.TheVariants.{Stepped};
ghost use Rattle.history.specs.declared.call.Call.TheVariants.{Step};
ghost use Rattle.history.specs.declared.standing.Standing.TheVariants.{GoingDown, ComingUp};
ghost use Rattle.history.specs.Attempts.{rising as standing_at, cut_short as shortened};
ghost use Rattle.history.specs.Rules.{outcome_from};
ghost use Rattle.engine.specs.States.{Says, Becomes, answered, travelled};
ghost use Rattle.engine.specs.Moving.{RaisesLast};

use crate::banks::{make, undo};
use crate::engine::Engine;
use crate::turns::Turn;
use bank::bank::Bank;
use bank::fault::BankFault;
use history::answer::StepAnswer;
use history::entry::Direction;
use history::fault::{EngineFault, Met};
use history::outcome::Outcome;
use history::standing::Standing;

// After the descent, with so many lowerings that stand.
pub(crate) fn rising(outcome: Outcome, lowered: u16) -> Standing
    ensures { result ≡ standing_at outcome lowered }
{
    if lowered == 0 {
        Standing::Landed { outcome }
    } else {
        Standing::ComingUp { outcome }
    }
}

// What a bank answered where so many lowerings stood; a fault of it travels whole.
pub(crate) fn met<T>(answer: Result<T, BankFault>, lowered: u16) -> Result<T, EngineFault>
    ensures { result ≡ travelled lowered answer }
{
    Ok(answer.map_err(|fault| Met { fault, lowered })?)
}

impl<B: Bank> Engine<B> {
    // Closed going down: by the alarm that is kept, or cancelled.
    pub(crate) fn cut_short(&self, alarm: Option<u8>) -> Outcome
        requires { self.now.lowered < full (devices self.now.order) }
        ensures { result ≡ shortened (devices self.now.order) alarm self.now.lowered }
    {
        let phase = Turn::of(self.order.devices(), self.lowered).phase;
        let taken = self.lowered;
        match alarm {
            Some(device) => Outcome::Alarm {
                device,
                phase,
                taken,
            },
            None => Outcome::Cancelled { phase, taken },
        }
    }

    // How the attempt ends that is closed now, if one is open.
    pub(crate) fn outcome(&self) -> Option<Outcome>
        ensures { result ≡ outcome_from (devices self.now.order) self.now.standing self.now.lowered }
    {
        match self.standing {
            Standing::Awake => None,
            Standing::GoingDown { alarm } => Some(self.cut_short(alarm)),
            Standing::Asleep => Some(Outcome::Slept {
                alarm: None,
                taken: self.lowered,
            }),
            Standing::ComingUp { outcome } | Standing::Landed { outcome } => Some(outcome),
        }
    }

    // Raises the device of the last lowering that stands.
    pub(crate) fn raise_last(&mut self, outcome: Outcome) -> Result<(), EngineFault>
        requires { self.old.standing ≡ ComingUp outcome }
        ensures answer { result ≡ Ok tt }
        ensures raises { RaisesLast B.kind (devices self.old.order) (B.model self.old.bank) self.old.journal.items (B.model self.new.bank) self.new.journal.items self.new.lowered }
        ensures less { self.new.lowered + 1 ≡ self.old.lowered }
        ensures standing { self.new.standing ≡ standing_at outcome self.new.lowered }
        ensures after { Becomes ⟦<B as Bank>⟧ Step self.old self.new }
    {
        let lowering = self.lowered - 1;
        let turn = Turn::of(self.order.devices(), lowering);
        let code = met(undo(&mut self.bank, &self.order, lowering), self.lowered)?;
        self.journal.push(turn.entry(Direction::Up, code)).unwrap();
        self.lowered = lowering;
        self.standing = rising(outcome, lowering);
        Ok(())
    }

    // Lowers the next device, unless it is hindered; then the attempt turns round.
    #[tactic(auto, using(crate::proofs::Ranges::turned_range, crate::proofs::Ranges::turned_entries))]
    pub(crate) fn lower_next(&mut self) -> Result<StepAnswer, EngineFault>
        requires { self.old.standing ≡ GoingDown None }
        ensures answer { Says ⟦<B as Bank>⟧ Step self.old (answered Stepped result) }
        ensures after { Becomes ⟦<B as Bank>⟧ Step self.old self.new }
    {
        let taken = self.lowered;
        let turn = Turn::of(self.order.devices(), taken);
        let code = met(make(&mut self.bank, &self.order, taken), taken)?;
        self.journal
            .push(turn.entry(Direction::Down, code))
            .unwrap();
        if code != 0 {
            self.standing = rising(turn.fault(code, taken), taken);
            return Ok(StepAnswer::Hindered);
        }
        self.lowered = taken + 1;
        if usize::from(self.lowered) == 4 * self.order.devices().len() {
            self.standing = Standing::Asleep;
        }
        Ok(StepAnswer::Lowered)
    }
}
