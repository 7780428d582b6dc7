// What is printed of a run: its journal and its outcome, or why it is refused.
#![tactic(auto)]

pub mod help;
pub mod printing;
