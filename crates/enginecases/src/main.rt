// Makes engines of banks of many shapes and of many orders, gives them long lists of calls, and prints what they answer. What it
// has to print comes from the model, which is written in another language from the documents alone.
#![tactic(auto)]

mod cases;
mod lines;
mod reading;

use crate::cases::Histories;
use casebytes::shapes::print_cases;
use std::fs;

fn main(rt: HostRuntime) -> anyhow::Result<()> {
    let all = fs::read(&rt, "histories.bin")?;
    print_cases::<Histories>(&rt, &all)
}
