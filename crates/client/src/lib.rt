// A program over an engine of any bank that closes what it opens. The check refuses it if some path lets the ticket go.
#![tactic(auto)]

ghost use Rattle.std.specs.Prelude.{◌≡◌, true, false, Ok, IfOk, MatchResult, OnErr};
ghost use Rattle.history.specs.declared.answer.Answer.TheVariants.{Closed};
ghost use Rattle.history.specs.declared.call.Call.TheVariants.{Close};
ghost use Rattle.history.specs.declared.fault.EngineFault.TheVariants.{InAttempt};
ghost use Rattle.engine.specs.States.{state, Says, Becomes, KeepsLaw};
ghost use Rattle.engine.specs.Tickets.{is_open};
ghost use Rattle.client.specs.Naps.{GivesBack, Napped};

use bank::bank::Bank;
use engine::engine::Engine;
use engine::ticket::Ticket;
use history::fault::EngineFault;
use history::outcome::Outcome;

// Closes the attempt that is open.
fn close<B: Bank>(engine: &mut Engine<B>, ticket: Ticket) -> Outcome
    requires { is_open engine.old.standing ≡ true }
    ensures law { KeepsLaw ⟦<B as Bank>⟧ Close engine.old (Ok (Closed result)) engine.new }
    ensures answer { Says ⟦<B as Bank>⟧ Close engine.old (Ok (Closed result)) }
    ensures after { Becomes ⟦<B as Bank>⟧ Close engine.old engine.new }
{
    match engine.close(ticket) {
        Ok(outcome) => outcome,
        Err(_) => unreachable!(),
    }
}

// Opens an attempt, asks for so many steps, whatever they answer, and closes it. Refused in an attempt, which is then as it was.
pub fn nap<B: Bank>(engine: &mut Engine<B>, steps: u16) -> Result<Outcome, EngineFault>
    ensures napped { IfOk result (Napped ⟦<B as Bank>⟧ engine.old engine.new steps) }
    ensures words { IfOk result (λ _. GivesBack ⟦<B as Bank>⟧ engine.old engine.new) }
    ensures refused { MatchResult result (λ _. is_open engine.old.standing ≡ false) (λ fault. (is_open engine.old.standing ≡ true) × (fault ≡ InAttempt)) }
    ensures order { engine.new.order ≡ engine.old.order }
    ensures none { OnErr result (state ⟦<B as Bank>⟧ engine.new ≡ state ⟦<B as Bank>⟧ engine.old) }
{
    let ticket = engine.open()?;
    for _ in 0..steps {
        let _answer = engine.step();
    }
    Ok(close(engine, ticket))
}
