// A case is a run, a what-if or a line that is written: what each of them prints.
use anyhow::anyhow;
use casebytes::bytes::Bytes;
use history::outcome::Outcome;
use lines::report::Report;
use program::fault::{ProgramFault, RunFault};
use refusal::Refusal;
use run::running::run;
use run::whatif::what_if;
use runlisting::printing::write_run;
use std::alloc::Global;
use std::io;

fn print_refusal(rt: &HostRuntime, fault: ProgramFault) -> anyhow::Result<()> {
    println!(rt; "{}", Refusal::from(fault))?;
    Ok(())
}

// The fault of a refusal. That memory is wanting stops all.
fn refused(fault: RunFault) -> anyhow::Result<ProgramFault> {
    match fault {
        RunFault::Program { fault } => Ok(fault),
        RunFault::Memory => Err(anyhow!("no memory")),
    }
}

// Kind, errno, device, phase and taken as numbers.
fn print_outcome(rt: &HostRuntime, outcome: Outcome) -> anyhow::Result<()> {
    let values = outcome.values();
    println!(rt;
        "{} {} {} {} {}",
        values.kind, values.errno, values.device, values.phase, values.taken
    )?;
    Ok(())
}

// What is printed of a run.
fn print_run(rt: &HostRuntime, board: &[u8], sheet: &[u8]) -> anyhow::Result<()> {
    let ran = run(rt.alloc(), board, sheet);
    if let Err(RunFault::Memory) = ran {
        return Err(anyhow!("no memory"));
    }
    write_run(&ran, &mut io::writer(rt))?;
    Ok(())
}

// The outcome of a what-if or its refusal, and whether the sheet is as it was.
fn print_what_if(
    rt: &HostRuntime,
    board: &[u8],
    sheet: &[u8],
    bytes: &mut Bytes,
) -> anyhow::Result<()> {
    let (device, level, byte) = (bytes.byte()?, bytes.byte()?, bytes.byte()?);
    let mut asked = sheet.to_vec(rt.alloc())?;
    match what_if(rt.alloc(), board, &mut asked, device, level, byte) {
        Ok(outcome) => print_outcome(rt, outcome)?,
        Err(fault) => print_refusal(rt, refused(fault)?)?,
    }
    let same = asked.as_slice() == sheet;
    println!(rt; "{}", if same { "same" } else { "changed" })?;
    Ok(())
}

// A buffer in which no byte is like its neighbours.
fn buffer(heap: Global, size: u8) -> anyhow::Result<Vec<u8>> {
    let mut bytes = Vec::new(heap);
    for i in 0..u16::from(size) {
        bytes.push(((7 * i + 3) % 256) as u8)?;
    }
    Ok(bytes)
}

// The line of an entry of the journal, or with 65535 that of the outcome.
fn write_line(report: &Report, index: u16, out: &mut [u8]) -> Result<usize, ProgramFault> {
    match index {
        65535 => report.outcome_line(out),
        _ => report.entry_line(usize::from(index), out),
    }
}

// What the writing of a line answers, and the whole buffer after it.
fn print_line(
    rt: &HostRuntime,
    board: &[u8],
    sheet: &[u8],
    bytes: &mut Bytes,
) -> anyhow::Result<()> {
    let (size, index) = (bytes.byte()?, bytes.number()?);
    let report = match run(rt.alloc(), board, sheet) {
        Ok(report) => report,
        Err(fault) => return print_refusal(rt, refused(fault)?),
    };
    let mut out = buffer(rt.alloc(), size)?;
    match write_line(&report, index, &mut out) {
        Ok(length) => println!(rt; "{length}")?,
        Err(fault) => print_refusal(rt, fault)?,
    }
    for byte in &out {
        print!(rt; "{byte:02x}")?;
    }
    println!(rt)?;
    Ok(())
}

// A board file and a sheet, each with its length before it, between the letter of the case and what is asked.
pub fn print_case(rt: &HostRuntime, bytes: &mut Bytes) -> anyhow::Result<()> {
    let letter = bytes.byte()?;
    let size = bytes.number()?;
    let board = bytes.take(usize::from(size))?;
    let size = bytes.number()?;
    let sheet = bytes.take(usize::from(size))?;
    match letter {
        b'r' => print_run(rt, board, sheet),
        b'w' => print_what_if(rt, board, sheet, bytes),
        b'l' => print_line(rt, board, sheet, bytes),
        _ => Err(anyhow!("no case has this letter")),
    }
}
