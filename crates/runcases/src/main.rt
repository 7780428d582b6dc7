// Runs boards with their sheets, asks what-ifs and writes lines into buffers, and prints what comes of each. What it has to print
// comes from the model, which is written in another language from the documents alone.
#![tactic(auto)]

mod cases;

use crate::cases::print_case;
use casebytes::bytes::Bytes;
use std::fs;

fn print_cases(rt: &HostRuntime, all: &[u8]) -> anyhow::Result<()> {
    let mut bytes = Bytes { rest: all };
    for number in 0..all.len() {
        if bytes.rest.is_empty() {
            break;
        }
        println!(rt; "# {number}")?;
        print_case(rt, &mut bytes)?;
    }
    Ok(())
}

fn main(rt: HostRuntime) -> anyhow::Result<()> {
    let all = fs::read(&rt, "runs.bin")?;
    print_cases(&rt, &all)
}
