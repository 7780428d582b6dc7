// sleeprun: puts the board in `board.bin` to sleep and wakes it, with the faults in `sheet.bin`, and prints what happened, or why
// the files are refused.
#![tactic(auto)]

use host::{asks_for_help, bytes_of};
use runlisting::help::HELP;
use runlisting::printing::{Ending, sleep};
use std::alloc::AllocError;
use std::io::{self, Write};
use std::process::ExitCode;

// The bytes of both files.
fn files(rt: &HostRuntime) -> Result<(Vec<u8>, Vec<u8>), AllocError> {
    Ok((bytes_of(rt, "board.bin")?, bytes_of(rt, "sheet.bin")?))
}

// Runs the files and prints what is to be told of it, and answers how the program ends.
fn print_run(rt: &HostRuntime) -> io::Result<ExitCode> {
    let ending = match files(rt) {
        Ok((board, sheet)) => sleep(rt.alloc(), &board, &sheet, &mut io::writer(rt))?,
        Err(_) => Ending::WantsMemory,
    };
    match ending {
        Ending::Ran => Ok(ExitCode::SUCCESS),
        Ending::Refused => Ok(ExitCode::FAILURE),
        Ending::WantsMemory => {
            eprintln!(rt; "sleeprun: not enough memory")?;
            Ok(ExitCode::FAILURE)
        }
    }
}

fn print_help(rt: &HostRuntime) -> io::Result<ExitCode> {
    io::writer(rt).write_all(HELP.as_bytes())?;
    Ok(ExitCode::SUCCESS)
}

// Where nothing can be written, the program ends with status 1 too.
fn main(rt: HostRuntime) -> ExitCode {
    let printed = if asks_for_help(&rt) {
        print_help(&rt)
    } else {
        print_run(&rt)
    };
    printed.unwrap_or(ExitCode::FAILURE)
}
