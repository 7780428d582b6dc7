// A bank for tests, whose choices come from outside.
#![tactic(auto)]

pub mod choice;
pub mod free;
