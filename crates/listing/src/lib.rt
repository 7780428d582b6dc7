// What is printed of a board file: its devices in their order, or why it is refused.
#![tactic(auto)]

pub mod help;
pub mod lines;
pub mod printing;
#[cfg(test)]
mod tests;
