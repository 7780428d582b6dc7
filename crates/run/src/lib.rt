// Runs of board files with their fault sheets, and what-ifs.
#![tactic(auto)]

mod files;
pub mod running;
pub mod whatif;
