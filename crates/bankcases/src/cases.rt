// One case: a bank and its calls, and the lines that are printed.
use anyhow::anyhow;
use bank::call::{Call, Reply};
use bank::fault::{BankFault, MakeFault};
use bank::playing::play;
use casebytes::bytes::Bytes;
use casebytes::made::Made;
use casebytes::shapes::Case;
use refusal::Refusal;

// The name and the device of a call.
fn print_call(rt: &HostRuntime, call: Call) -> anyhow::Result<()> {
    match call {
        Call::Count => print!(rt; "count")?,
        Call::Look { device } => print!(rt; "look {device}")?,
        Call::Put { device, word: _ } => print!(rt; "put {device}")?,
        Call::Lower { device } => print!(rt; "lower {device}")?,
        Call::Raise { device } => print!(rt; "raise {device}")?,
    }
    Ok(())
}

fn print_answer(rt: &HostRuntime, answer: Result<Reply, BankFault>) -> anyhow::Result<()> {
    match answer {
        Ok(Reply::Counted { count }) => println!(rt; " {count}")?,
        Ok(
            Reply::Seen {
                level,
                word,
                hindrance,
            },
        ) => println!(rt; " {level} {word} {hindrance}")?,
        Ok(Reply::Done) => println!(rt)?,
        Ok(Reply::Code { code }) => println!(rt; " {code}")?,
        Err(fault) => println!(rt; " {}", Refusal::from(fault))?,
    }
    Ok(())
}

// A bank that is made and called.
pub struct Calls;

impl Case for Calls {
    fn print<B: Made>(rt: &HostRuntime, bytes: &mut Bytes) -> anyhow::Result<()> {
        let made = B::made(rt.alloc(), bytes)?;
        let calls = bytes.calls(rt.alloc())?;
        let mut bank = match made {
            Ok(bank) => bank,
            Err(MakeFault::Bank { fault }) => {
                println!(rt; "{}", Refusal::from(fault))?;
                return Ok(());
            }
            Err(MakeFault::Memory) => return Err(anyhow!("no memory")),
        };
        let answers = play(rt.alloc(), &mut bank, &calls)?;
        for (call, answer) in calls.iter().zip(&answers) {
            print_call(rt, *call)?;
            print_answer(rt, *answer)?;
        }
        Ok(())
    }
}
