// Makes banks of many shapes, calls them, and prints what they answer. What it has to print comes from the model, which is
// written in another language from the documents alone.
#![tactic(auto)]

mod cases;

use crate::cases::Calls;
use casebytes::shapes::print_cases;
use std::fs;

fn main(rt: HostRuntime) -> anyhow::Result<()> {
    let all = fs::read(&rt, "calls.bin")?;
    print_cases::<Calls>(&rt, &all)
}
