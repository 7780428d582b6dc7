// How an attempt is run.
ghost use Rattle.std.specs.Prelude.{◌≡◌, ◌*◌, ◌≤◌, true, [], Ok, vec_capacity, MatchResult};
ghost use Rattle.history.specs.declared.answer.Answer.TheVariants.{Closed};
ghost use Rattle.history.specs.declared.call.Call.TheVariants.{Close};
ghost use Rattle.history.specs.Schedule.{full};
ghost use Rattle.order.specs.Answers.{devices};
ghost use Rattle.engine.specs.States.{Says, Becomes, state};
ghost use Rattle.engine.specs.Tickets.{is_open};
ghost use Rattle.attempt.specs.Attempts.{Attempts};
ghost use Rattle.attempt.specs.Runs.{just_made, is_at_rest as at_rest};
ghost use Rattle.attempt.specs.Settling.{called, Opens, Settled, Calls, Goes, Ended};

use crate::attempt::Attempt;
use bank::bank::Bank;
use engine::engine::Engine;
use engine::ticket::Ticket;
use history::entry::Entry;
use history::fault::EngineFault;
use history::outcome::Outcome;
use history::standing::Stage;
use order::ordering::Order;
use program::fault::{Called, RunFault};
use std::alloc::Global;

// A refusal of the engine travels on with the number of calls that were obeyed before it.
fn at<T>(answer: Result<T, EngineFault>, calls: u16) -> Result<T, Called>
    ensures { result ≡ called answer calls }
{
    answer.map_err(|fault| Called { fault, calls })
}

// Opens the first attempt of an engine that is just made.
fn open<B: Bank>(engine: &mut Engine<B>) -> Result<Ticket, Called>
    requires { state ⟦<B as Bank>⟧ engine.old ≡ just_made (B.model engine.old.bank) }
    ensures { MatchResult result (λ _. Opens ⟦<B as Bank>⟧ engine.old engine.new) (λ _. ⊥) }
{
    at(engine.open(), 1)
}

// Whether an engine is asleep or landed.
fn is_at_rest<B: Bank>(engine: &Engine<B>) -> bool
    ensures { result ≡ at_rest engine.now.standing }
{
    matches!(engine.stage(), Stage::Asleep | Stage::Landed)
}

// Steps an engine until it is asleep or landed, and answers how many steps that took.
#[tactic(auto, using(crate::proofs::Engines::halfway_none, crate::proofs::Engines::halfway_more))]
fn settle<B: Bank>(engine: &mut Engine<B>) -> Result<u16, Called>
    requires { is_open engine.old.standing ≡ true }
    ensures { MatchResult result (Settled ⟦<B as Bank>⟧ engine.old engine.new) (λ _. ⊥) }
{
    let mut steps = 0;
    while !is_at_rest(engine) {
        at(engine.step(), 2 + steps)?;
        steps += 1;
    }
    Ok(steps)
}

// Closes the attempt that is open.
fn close<B: Bank>(engine: &mut Engine<B>, ticket: Ticket) -> Outcome
    requires { is_open engine.old.standing ≡ true }
    ensures answer { Says ⟦<B as Bank>⟧ Close engine.old (Ok (Closed result)) }
    ensures after { Becomes ⟦<B as Bank>⟧ Close engine.old engine.new }
{
    match engine.close(ticket) {
        Ok(outcome) => outcome,
        Err(_) => unreachable!(),
    }
}

// Opens an attempt, steps until the engine is asleep or landed, and closes: how many steps that took, and how the attempt ended.
fn call<B: Bank>(engine: &mut Engine<B>) -> Result<(u16, Outcome), Called>
    requires { state ⟦<B as Bank>⟧ engine.old ≡ just_made (B.model engine.old.bank) }
    ensures { Calls ⟦<B as Bank>⟧ engine.old engine.new result }
{
    let ticket = open(engine)?;
    let steps = settle(engine)?;
    Ok((steps, close(engine, ticket)))
}

// Makes these calls; the journal and the outcome then name devices of the order alone.
fn go<B: Bank>(engine: &mut Engine<B>) -> Result<(u16, Outcome), Called>
    requires { state ⟦<B as Bank>⟧ engine.old ≡ just_made (B.model engine.old.bank) }
    ensures { Goes ⟦<B as Bank>⟧ engine.old engine.new result }
{
    call(engine)
}

// The attempt of an engine that is just made, with its journal written to this room.
fn attempt<B: Bank>(
    engine: &mut Engine<B>,
    order: &Order,
    mut journal: Vec<Entry>,
) -> Result<Attempt, Called>
    requires same { engine.old.order ≡ order.now }
    requires made { state ⟦<B as Bank>⟧ engine.old ≡ just_made (B.model engine.old.bank) }
    requires empty { journal.items ≡ [] }
    requires room { 2 * full (devices order.now) ≤ vec_capacity journal }
    ensures { MatchResult result (Ended B.kind (devices order.now) (B.model engine.old.bank)) (λ _. ⊥) }
{
    let (steps, outcome) = go(engine)?;
    journal.extend_from_slice(engine.entries()).unwrap();
    Ok(Attempt {
        journal,
        outcome,
        devices: order.devices().len() as u8,
        calls: 3 + steps,
    })
}

impl Attempt {
    // Makes an engine of this order over this bank, opens an attempt, steps until the engine is asleep or landed, and closes.
    // Refused where the engine is not made.
    pub fn run<B: Bank + Drop>(heap: Global, order: Order, bank: B) -> Result<Attempt, RunFault>
        ensures { Attempts B.kind (B.model bank) order result }
    {
        let mut engine = Engine::new(heap, order, bank)?;
        let journal = Vec::with_capacity(heap, 8 * order.devices().len())?;
        Ok(attempt(&mut engine, &order, journal)?)
    }
}
