// From the bytes of both files to the lines that are printed of their run.
ghost use Rattle.std.specs.Prelude.{◌≡◌, ◌<◌, length, take, IfOk, OnOk};
ghost use Rattle.std.specs.Io.KnownBytes.{Appends};
ghost use Rattle.lines.specs.Writing.{journal};
ghost use Rattle.refusal.specs.Lines.{line};
ghost use Rattle.runlisting.specs.Printing.{Sleeps, ended, end_of, entry_text, outcome_text, printed, report_lines};

use lines::report::Report;
use lines::{LINE_ROOM, refusal_line};
use program::fault::RunFault;
use refusal::Refusal;
use run::running::run;
use std::alloc::Global;
use std::io;

// How a run ended for the program that prints it.
#[derive(Clone, Copy, PartialEq, Eq, Debug)]
pub enum Ending {
    // The board was run, and its journal and outcome are printed.
    Ran,
    // A file was refused, and the refusal is printed.
    Refused,
    // There was no memory for it, and nothing is printed.
    WantsMemory,
}

fn end_of(ran: &Result<Report, RunFault>) -> Ending
    ensures { result ≡ end_of ran.now }
{
    match ran {
        Ok(_) => Ending::Ran,
        Err(RunFault::Program { .. }) => Ending::Refused,
        Err(RunFault::Memory) => Ending::WantsMemory,
    }
}

// Writes the front of a line's buffer with a line end behind it, over the byte there.
fn write_ended<W: io::Write>(line: &mut [u8], size: usize, out: &mut W) -> io::Result<()>
    requires { size < length line.old }
    ensures { OnOk result (Appends (W.contents out.old) (W.contents out.new) (ended (take size line.old))) }
{
    line[size] = b'\n';
    out.write_all(&line[..=size])
}

// The line of an entry.
fn write_entry<W: io::Write>(report: &Report, index: usize, out: &mut W) -> io::Result<()>
    requires { index < length (journal report.now) }
    ensures { OnOk result (Appends (W.contents out.old) (W.contents out.new) (entry_text report.now index)) }
{
    let mut line = [0; LINE_ROOM + 1];
    let size = report.entry_line(index, &mut line).unwrap();
    write_ended(&mut line, size, out)
}

// The line of the outcome.
fn write_outcome<W: io::Write>(report: &Report, out: &mut W) -> io::Result<()>
    ensures { OnOk result (Appends (W.contents out.old) (W.contents out.new) (outcome_text report.now)) }
{
    let mut line = [0; LINE_ROOM + 1];
    let size = report.outcome_line(&mut line).unwrap();
    write_ended(&mut line, size, out)
}

// The lines of the journal, the oldest first, and then the line of the outcome.
#[tactic(auto, using(crate::proofs::Written::starts, crate::proofs::Written::goes_on, crate::proofs::Written::ends))]
fn write_report<W: io::Write>(report: &Report, out: &mut W) -> io::Result<()>
    ensures { OnOk result (Appends (W.contents out.old) (W.contents out.new) (report_lines report.now)) }
{
    for index in 0..report.journal().len() {
        write_entry(report, index, out)?;
    }
    write_outcome(report, out)
}

// The line of a refusal.
fn write_refusal<W: io::Write>(refusal: Refusal, out: &mut W) -> io::Result<()>
    ensures { OnOk result (Appends (W.contents out.old) (W.contents out.new) (ended (line refusal))) }
{
    let mut line = [0; LINE_ROOM + 1];
    let size = refusal_line(refusal, &mut line).unwrap();
    write_ended(&mut line, size, out)
}

// Writes what is printed of a run: the lines of its journal and of its outcome, or the line of its refusal; nothing where memory was
// wanting.
pub fn write_run<W: io::Write>(ran: &Result<Report, RunFault>, out: &mut W) -> io::Result<()>
    ensures { OnOk result (Appends (W.contents out.old) (W.contents out.new) (printed ran.now)) }
{
    match ran {
        Ok(report) => write_report(report, out),
        Err(RunFault::Program { fault }) => write_refusal(Refusal::from(*fault), out),
        Err(RunFault::Memory) => Ok(()),
    }
}

// The whole way: runs the board of a board file with a fault sheet, and writes what is printed of it.
pub fn sleep<W: io::Write>(
    heap: Global,
    board: &[u8],
    sheet: &[u8],
    out: &mut W,
) -> io::Result<Ending>
    ensures { IfOk result (λ end. Sleeps board.now sheet.now (W.contents out.old) (W.contents out.new) end) }
{
    let ran = run(heap, board, sheet);
    write_run(&ran, out)?;
    Ok(end_of(&ran))
}
