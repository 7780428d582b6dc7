// The words of a bank's devices, kept in a table of its own size, so that no call needs memory.
#![tactic(auto)]

pub mod pile;
pub mod piles;
