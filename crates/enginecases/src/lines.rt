// The lines that are printed.
use bank::bank::Bank;
use engine::engine::Engine;
use history::answer::Answer;
use history::call::Call;
use history::fault::EngineFault;
use history::outcome::Outcome;
use history::standing::Stage;
use refusal::Refusal;

// The name of a call, and its device where it has one.
fn print_call(rt: &HostRuntime, call: Call) -> anyhow::Result<()> {
    match call {
        Call::Open => print!(rt; "open")?,
        Call::Step => print!(rt; "step")?,
        Call::Alarm { device } => print!(rt; "alarm {device}")?,
        Call::Close => print!(rt; "close")?,
        Call::Put { device, word: _ } => print!(rt; "put {device}")?,
        Call::Look { device } => print!(rt; "look {device}")?,
    }
    Ok(())
}

fn print_outcome(rt: &HostRuntime, outcome: Outcome) -> anyhow::Result<()> {
    let values = outcome.values();
    println!(rt;
        " {} {} {} {} {}",
        values.kind, values.errno, values.device, values.phase, values.taken
    )?;
    Ok(())
}

// What came up from the bank is told with how many lowerings stood.
fn print_fault(rt: &HostRuntime, fault: EngineFault) -> anyhow::Result<()> {
    print!(rt; " {}", Refusal::from(fault))?;
    match fault {
        EngineFault::Bank { fault: _, lowered } => println!(rt; " at {lowered}")?,
        _ => println!(rt)?,
    }
    Ok(())
}

pub fn print_answer(
    rt: &HostRuntime,
    call: Call,
    answer: Result<Answer, EngineFault>,
) -> anyhow::Result<()> {
    print_call(rt, call)?;
    match answer {
        Ok(Answer::Opened | Answer::Written) => println!(rt)?,
        Ok(Answer::Stepped { answer }) => println!(rt; " {}", answer.number())?,
        Ok(Answer::Heard { answer }) => println!(rt; " {}", answer.number())?,
        Ok(Answer::Closed { outcome }) => print_outcome(rt, outcome)?,
        Ok(
            Answer::Seen {
                level,
                word,
                hindrance,
            },
        ) => println!(rt; " {level} {word} {hindrance}")?,
        Err(fault) => print_fault(rt, fault)?,
    }
    Ok(())
}

// The devices of a bank by number.
pub fn print_devices<B: Bank>(rt: &HostRuntime, bank: &B) -> anyhow::Result<()> {
    for device in 0..bank.count() {
        if let Ok((level, word, hindrance)) = bank.look(device) {
            println!(rt; "device {device} {level} {word} {hindrance}")?;
        }
    }
    Ok(())
}

fn stage_name(stage: Stage) -> &'static str {
    match stage {
        Stage::Awake => "awake",
        Stage::GoingDown => "going down",
        Stage::Asleep => "asleep",
        Stage::ComingUp => "coming up",
        Stage::Landed => "landed",
    }
}

// Where an engine of so many devices stands, its devices, and its journal.
pub fn print_state<B: Bank>(rt: &HostRuntime, engine: &Engine<B>, count: u8) -> anyhow::Result<()> {
    println!(rt; "stage {}", stage_name(engine.stage()))?;
    for device in 0..count {
        if let Ok((level, word, hindrance)) = engine.look(device) {
            println!(rt; "device {device} {level} {word} {hindrance}")?;
        }
    }
    let entries = engine.entry_count();
    for index in 0..entries {
        if let Ok(entry) = engine.entry(index) {
            let (phase, direction) = (entry.phase.number(), entry.direction.sign());
            println!(rt; "entry {} {phase} {direction} {}", entry.device, entry.code)?;
        }
    }
    print!(rt; "entry {entries}")?;
    match engine.entry(entries) {
        Ok(_) => println!(rt)?,
        Err(fault) => print_fault(rt, fault)?,
    }
    Ok(())
}
