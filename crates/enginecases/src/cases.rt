// One case: a bank, an order, an engine of both, and its calls.
ghost use Rattle.std.specs.Prelude.{◌≡◌, true};
ghost use Rattle.engine.specs.Tickets.{is_open};

use crate::lines::{print_answer, print_devices, print_state};
use crate::reading::{read_calls, read_order};
use anyhow::anyhow;
use bank::bank::Bank;
use bank::fault::MakeFault as BankMakeFault;
use bank::playing::play;
use casebytes::bytes::Bytes;
use casebytes::made::Made;
use casebytes::shapes::Case;
use engine::engine::Engine;
use engine::engine::making::{MakeFault, Unmade};
use engine::engine::playing::Played;
use engine::ticket::Ticket;
use history::answer::Answer;
use history::call::Call;
use history::fault::EngineFault;
use order::ordering::Order;
use refusal::Refusal;

pub struct Histories;

fn print_order(rt: &HostRuntime, order: &Order) -> anyhow::Result<()> {
    print!(rt; "order")?;
    for device in order.devices() {
        print!(rt; " {device}")?;
    }
    println!(rt)?;
    Ok(())
}

// Closes the attempt that is open.
fn close<B: Bank>(engine: &mut Engine<B>, ticket: Ticket) -> Answer
    requires { is_open engine.old.standing ≡ true }
{
    match engine.close(ticket) {
        Ok(outcome) => Answer::Closed { outcome },
        Err(_) => unreachable!(),
    }
}

fn print_answers(
    rt: &HostRuntime,
    calls: &[Call],
    answers: &[Result<Answer, EngineFault>],
) -> anyhow::Result<()> {
    for (call, answer) in calls.iter().zip(answers) {
        print_answer(rt, *call, *answer)?;
    }
    Ok(())
}

// The calls, the state after them, and, if an attempt is open then, its close and the state after that.
fn print_history<B: Bank>(
    rt: &HostRuntime,
    engine: &mut Engine<B>,
    calls: &[Call],
    count: u8,
) -> anyhow::Result<()> {
    let Played { answers, ticket } = engine.play(rt.alloc(), calls)?;
    let answered = print_answers(rt, calls, &answers);
    let state = print_state(rt, engine, count);
    let closed = ticket.map(|ticket| close(engine, ticket));
    answered?;
    state?;
    if let Some(answer) = closed {
        print_answer(rt, Call::Close, Ok(answer))?;
        print_state(rt, engine, count)?;
    }
    Ok(())
}

impl Case for Histories {
    fn print<B: Made>(rt: &HostRuntime, bytes: &mut Bytes) -> anyhow::Result<()> {
        let made = B::made(rt.alloc(), bytes)?;
        let before = bytes.calls(rt.alloc())?;
        let order = read_order(bytes)?;
        let calls = read_calls(rt.alloc(), bytes)?;
        let mut bank = match made {
            Ok(bank) => bank,
            Err(BankMakeFault::Bank { fault }) => {
                println!(rt; "{}", Refusal::from(fault))?;
                return Ok(());
            }
            Err(BankMakeFault::Memory) => return Err(anyhow!("no memory")),
        };
        let _answers = play(rt.alloc(), &mut bank, &before)?;
        print_order(rt, &order)?;
        let count = bank.count();
        match Engine::new(rt.alloc(), order, bank) {
            Ok(mut engine) => print_history(rt, &mut engine, &calls, count),
            Err(
                Unmade {
                    fault: MakeFault::Engine { fault },
                    bank,
                },
            ) => {
                println!(rt; "{}", Refusal::from(fault))?;
                print_devices(rt, &bank)
            }
            Err(_) => Err(anyhow!("no memory")),
        }
    }
}
