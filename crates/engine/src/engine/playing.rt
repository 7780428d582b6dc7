// Calls of an engine, made one after another.
ghost use Rattle.std.specs.Prelude.{◌≡◌, true, IfOk, OnErr, IsSome};
ghost use Rattle.order.specs.Answers.{Superior, devices};
ghost use Rattle.history.specs.declared.answer.Answer.TheVariants.{Opened, Closed};
ghost use Rattle.history.specs.Rules.{all_said, after_all};
ghost use Rattle.history.specs.Law.{FitsCall, ObeyAll};
ghost use Rattle.engine.specs.States.{Says, Becomes, state};
ghost use Rattle.engine.specs.Tickets.{owes_after, Owes, is_open};

use crate::engine::Engine;
use crate::ticket::Ticket;
use bank::bank::Bank;
use history::answer::Answer;
use history::call::Call;
use history::fault::EngineFault;
use std::alloc::{AllocError, Global};

// What a list of calls was answered, and the ticket of the attempt that one of them opened and none after it closed.
#[derive(Drop)]
pub struct Played {
    pub answers: Vec<Result<Answer, EngineFault>>,
    pub ticket: Option<Ticket>,
}

// Whether a ticket is owed after an answer.
fn is_owed(owed: bool, answer: Result<Answer, EngineFault>) -> bool
    ensures { result ≡ owes_after owed answer }
{
    match answer {
        Ok(Answer::Opened) => true,
        Ok(Answer::Closed { outcome: _ }) => false,
        _ => owed,
    }
}

impl<B: Bank> Engine<B> {
    // Makes one call of any kind, without its ticket.
    fn reply(&mut self, call: Call) -> Result<Answer, EngineFault>
        ensures answer { Says ⟦<B as Bank>⟧ call self.old result }
        ensures after { Becomes ⟦<B as Bank>⟧ call self.old self.new }
        ensures fits { FitsCall call }
    {
        Ok(match call {
            Call::Open => {
                self.begin()?;
                Answer::Opened
            }
            Call::Step => Answer::Stepped { answer: self.go()? },
            Call::Alarm { device } => Answer::Heard {
                answer: self.hear(device)?,
            },
            Call::Close => Answer::Closed {
                outcome: self.finish()?,
            },
            Call::Put { device, word } => {
                self.set(device, word)?;
                Answer::Written
            }
            Call::Look { device } => {
                let (level, word, hindrance) = self.seen(device)?;
                Answer::Seen {
                    level,
                    word,
                    hindrance,
                }
            }
        })
    }

    // Makes calls in their order. A close among them closes whatever attempt is open; a ticket of it that the caller holds stays
    // out. Where there is no memory for the answers, no call is made.
    pub fn play(&mut self, heap: Global, calls: &[Call]) -> Result<Played, AllocError>
        ensures answers { IfOk result (λ played. played.answers.items ≡ all_said B.kind (devices self.old.order) (state ⟦<B as Bank>⟧ self.old) calls.now) }
        ensures after { IfOk result (λ _. state ⟦<B as Bank>⟧ self.new ≡ after_all B.kind (devices self.old.order) (state ⟦<B as Bank>⟧ self.old) calls.now) }
        ensures order { self.new.order ≡ self.old.order }
        ensures law { IfOk result (λ played. ObeyAll B.kind (Superior self.old.order.superiors) (devices self.old.order) calls.now (state ⟦<B as Bank>⟧ self.old) played.answers.items (state ⟦<B as Bank>⟧ self.new)) }
        ensures ticket { IfOk result (λ played. Owes played.answers.items played.ticket) }
        ensures opened { IfOk result (λ played. IsSome played.ticket → is_open self.new.standing ≡ true) }
        ensures none { OnErr result (state ⟦<B as Bank>⟧ self.new ≡ state ⟦<B as Bank>⟧ self.old) }
    {
        let mut answers = Vec::with_capacity(heap, calls.len())?;
        let mut owed = false;
        for call in calls {
            let answer = self.reply(*call);
            owed = is_owed(owed, answer);
            answers.push(answer).unwrap();
        }
        let ticket = if owed { Some(Ticket::new()) } else { None };
        Ok(Played { answers, ticket })
    }
}
