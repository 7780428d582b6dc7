// Calls of any bank, made one after another.
ghost use Rattle.std.specs.Prelude.{◌≡◌, [], ◌∷◌, length, IfOk, OnOk, OnErr};
ghost use Rattle.bank.specs.Behaviour.{Behaves};
ghost use Rattle.bank.specs.Runs.{Plays, answer_to, after, after_all};

use crate::bank::Bank;
use crate::call::{Call, Reply};
use crate::fault::BankFault;
use std::alloc::{AllocError, Global};

impl Call {
    // Makes this call of a bank, which behaves as any bank does.
    pub fn make<B: Bank>(self, bank: &mut B) -> Result<Reply, BankFault>
        ensures answer { result ≡ answer_to (B.kind.devices (B.model bank.old)) self }
        ensures after { B.model bank.new ≡ after B.kind (B.model bank.old) self }
        ensures count { length (B.kind.devices (B.model bank.new)) ≡ length (B.kind.devices (B.model bank.old)) }
        ensures behaves { Behaves (B.kind.devices (B.model bank.old)) (self ∷ []) (result ∷ []) (B.kind.devices (B.model bank.new)) }
    {
        Ok(match self {
            Call::Count => Reply::Counted {
                count: bank.count(),
            },
            Call::Look { device } => {
                let (level, word, hindrance) = bank.look(device)?;
                Reply::Seen {
                    level,
                    word,
                    hindrance,
                }
            }
            Call::Put { device, word } => {
                bank.put(device, word)?;
                Reply::Done
            }
            Call::Lower { device } => Reply::Code {
                code: bank.lower(device)?,
            },
            Call::Raise { device } => Reply::Code {
                code: bank.raise(device)?,
            },
        })
    }
}

// Makes calls of a bank in their order. Where there is no memory for the answers, the bank stays as it was.
pub fn play<B: Bank>(
    heap: Global,
    bank: &mut B,
    calls: &[Call],
) -> Result<Vec<Result<Reply, BankFault>>, AllocError>
    ensures answers { Plays B.kind (B.model bank.old) calls.now result }
    ensures after { OnOk result (B.model bank.new ≡ after_all B.kind (B.model bank.old) calls.now) }
    ensures behaves { IfOk result (λ answers. Behaves (B.kind.devices (B.model bank.old)) calls.now answers.items (B.kind.devices (B.model bank.new))) }
    ensures count { length (B.kind.devices (B.model bank.new)) ≡ length (B.kind.devices (B.model bank.old)) }
    ensures none { OnErr result (B.model bank.new ≡ B.model bank.old) }
{
    let mut answers = Vec::with_capacity(heap, calls.len())?;
    for call in calls {
        answers.push(call.make(bank)).unwrap();
    }
    Ok(answers)
}
