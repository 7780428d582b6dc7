// Running engines: the worked run, what a refused making hands back, calls of an engine that is awake, and tickets.
ghost use Rattle.std.specs.Prelude.{◌≡◌, true};
ghost use Rattle.engine.specs.Tickets.{is_open};

use crate::worked_board;
use bank::bank::Bank;
use bank::fault::BankFault;
use banks::quiet::quiet_bank;
use board::board::Board;
use boardbank::{BoardBank, board_bank};
use client::nap;
use engine::engine::Engine;
use engine::engine::making::{MakeFault, Unmade};
use engine::ticket::Ticket;
use history::answer::{AlarmAnswer, Answer, StepAnswer};
use history::call::Call;
use history::entry::{Direction, Entry};
use history::fault::EngineFault;
use history::outcome::Outcome;
use history::phase::Phase;
use history::standing::Stage;
use order::ordering::Order;
use order::superiors::Superiors;
use refusal::{Layer, Refusal};
use sessions::session::run_session;
use std::alloc::Global;
use std::test::Fail;

// The order of clk, i2c and lcd.
fn three() -> Result<Order, Fail> {
    let file = worked_board(0).ok_or("no such case")?;
    Ok(Board::check(file)?)
}

// The order of devices that have no superiors.
fn plain(count: u8) -> Result<Order, Fail> {
    let table = Superiors::new(count).ok_or("no table")?;
    Ok(table.order().ok().ok_or("no order")?)
}

// A cell that hinders i2c by 110 on its way into level 2.
fn cells(heap: Global) -> Result<Vec<u8>, Fail> {
    let mut cells = Vec::new(heap);
    cells.extend_from_slice(&[0; 12])?;
    cells[5] = 110;
    Ok(cells)
}

// An engine over clk, i2c and lcd.
fn engine_of_three(heap: Global) -> Result<Engine<BoardBank>, Fail> {
    let bank = board_bank(heap, &[0x21a1_b2c3], &[0, 0x500], &[], cells(heap)?)
        .ok()
        .ok_or("no bank")?;
    let engine = Engine::new(heap, three()?, bank).ok().ok_or("no engine")?;
    Ok(engine)
}

// Closes the attempt that is open.
fn close<B: Bank>(engine: &mut Engine<B>, ticket: Ticket) -> Outcome
    requires { is_open engine.old.standing ≡ true }
{
    match engine.close(ticket) {
        Ok(outcome) => outcome,
        Err(_) => unreachable!(),
    }
}

#[test]
fn i2c_refuses(rt: HostRuntime) -> Result<(), Fail> {
    let mut calls = Vec::new(rt.alloc());
    calls.push(Call::Open)?;
    for _ in 0..9 {
        calls.push(Call::Step)?;
    }
    calls.push(Call::Close)?;
    let made = run_session(
        rt.alloc(),
        three()?,
        &[0x21a1_b2c3],
        &[0, 0x500],
        &[],
        cells(rt.alloc())?,
        &calls,
    );
    let session = made.ok().ok_or("no session")?;
    let outcome = Outcome::Fault {
        errno: 110,
        device: 1,
        phase: Phase::Suspend,
        taken: 4,
    };
    let refused = Entry {
        device: 1,
        phase: Phase::Suspend,
        direction: Direction::Down,
        code: -110,
    };
    assert!(rt; session.answers.len() == 11);
    assert!(rt; session.answers[10] == Ok(Answer::Closed { outcome }));
    assert!(rt; session.journal.len() == 9);
    assert!(rt; session.journal[4] == refused);
    assert!(rt; session.stage == Stage::Awake);
    assert!(rt; session.ticket.is_none());
    Ok(())
}

#[test]
fn a_nap_gives_the_words_back(rt: HostRuntime) -> Result<(), Fail> {
    let mut engine = engine_of_three(rt.alloc())?;
    assert!(rt; engine.put(2, 0x700) == Ok(()));
    let outcome = Outcome::Cancelled {
        phase: Phase::Suspend,
        taken: 4,
    };
    assert!(rt; nap(&mut engine, 4) == Ok(outcome));
    assert!(rt; engine.look(2) == Ok((0, 0x700, 0)));
    let outcome = Outcome::Fault {
        errno: 110,
        device: 1,
        phase: Phase::Suspend,
        taken: 4,
    };
    assert!(rt; nap(&mut engine, 100) == Ok(outcome));
    assert!(rt; engine.look(0) == Ok((0, 0x21a1_b2c3, 0)));
    assert!(rt; engine.entry_count() == 9);
    assert!(rt; engine.entry(9) == Err(EngineFault::NoEntry));
    assert!(rt; engine.stage() == Stage::Awake);
    Ok(())
}

#[test]
fn an_engine_that_is_awake_refuses(rt: HostRuntime) -> Result<(), Fail> {
    let mut engine = engine_of_three(rt.alloc())?;
    let none = EngineFault::Bank {
        fault: BankFault::NoDevice { device: 3 },
        lowered: 0,
    };
    assert!(rt; engine.step() == Err(EngineFault::NothingOpen));
    assert!(rt; engine.alarm(2) == Err(EngineFault::NothingOpen));
    assert!(rt; engine.alarm(3) == Err(none));
    assert!(rt; engine.put(3, 1) == Err(none));
    assert!(rt; engine.look(3) == Err(none));
    assert!(rt; engine.entries().is_empty());
    Ok(())
}

#[test]
fn a_ticket_comes_back(rt: HostRuntime) -> Result<(), Fail> {
    let mut engine = engine_of_three(rt.alloc())?;
    let mut other = engine_of_three(rt.alloc())?;
    let ticket = engine.open().ok().expect(&rt, "an opening");
    let unclosed = other.close(ticket).err().expect(&rt, "a refused close");
    let fault = unclosed.fault;
    let outcome = close(&mut engine, unclosed.ticket);
    assert!(rt; fault == EngineFault::NothingOpen);
    assert!(rt;
        outcome
            == Outcome::Cancelled {
                phase: Phase::Prepare,
                taken: 0
            }
    );
    Ok(())
}

#[test]
fn a_refused_engine_hands_its_bank_back(rt: HostRuntime) -> Result<(), Fail> {
    let bank = quiet_bank(rt.alloc(), &[7, 8]).ok().ok_or("no bank")?;
    let made = Engine::new(rt.alloc(), plain(3)?, bank);
    let Unmade { fault, mut bank } = made.err().ok_or("an engine of 2 and 3")?;
    assert!(rt;
        fault
            == MakeFault::Engine {
                fault: EngineFault::CountsDiffer
            }
    );
    assert!(rt; bank.lower(1) == Ok(0));
    let made = Engine::new(rt.alloc(), plain(2)?, bank);
    let Unmade { fault, bank } = made.err().ok_or("an engine of a device at level 1")?;
    assert!(rt;
        fault
            == MakeFault::Engine {
                fault: EngineFault::NotRunning
            }
    );
    assert!(rt; bank.look(1) == Ok((1, 8, 0)));
    Ok(())
}

#[test]
fn engine_faults_are_told(rt: HostRuntime) {
    let fault = BankFault::NoDevice { device: 9 };
    let inner = Refusal::from(EngineFault::Bank { fault, lowered: 5 });
    assert!(rt; inner == Refusal::from(fault));
    let own = Refusal::from(EngineFault::NoEntry);
    let told = Refusal {
        layer: Layer::Engine,
        number: 25,
        place: 0,
    };
    assert!(rt; own == told);
    assert!(rt; StepAnswer::Alarmed.number() == 4);
    assert!(rt; AlarmAnswer::Kept.number() == 1);
}
