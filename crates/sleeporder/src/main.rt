// sleeporder: prints the order in which the devices of the board in `board.bin` go to sleep, or why the file is refused.
#![tactic(auto)]

use host::{asks_for_help, bytes_of};
use listing::help::HELP;
use listing::printing::{ListFault, list, write_listed};
use std::io::{self, Write};
use std::process::ExitCode;

// The lines of the board file in the current folder.
fn lines_of_board(rt: &HostRuntime) -> Result<String, ListFault> {
    let bytes = bytes_of(rt, "board.bin")?;
    list(rt.alloc(), &bytes)
}

// Prints the lines of the board file, or the line of its refusal, and answers how the program ends.
fn print_order(rt: &HostRuntime) -> io::Result<ExitCode> {
    let listed = lines_of_board(rt);
    write_listed(&listed, &mut io::writer(rt))?;
    match listed {
        Ok(_) => Ok(ExitCode::SUCCESS),
        Err(ListFault::Refused { .. }) => Ok(ExitCode::FAILURE),
        Err(ListFault::Memory) => {
            eprintln!(rt; "sleeporder: not enough memory")?;
            Ok(ExitCode::FAILURE)
        }
    }
}

fn print_help(rt: &HostRuntime) -> io::Result<ExitCode> {
    io::writer(rt).write_all(HELP.as_bytes())?;
    Ok(ExitCode::SUCCESS)
}

// Where nothing can be written, the program ends with status 1 too.
fn main(rt: HostRuntime) -> ExitCode {
    let printed = if asks_for_help(&rt) {
        print_help(&rt)
    } else {
        print_order(&rt)
    };
    printed.unwrap_or(ExitCode::FAILURE)
}
