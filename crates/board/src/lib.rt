// Boards: from the bytes of a board file to the board that it describes, or to the rule that it breaks.
#![tactic(auto)]

pub mod board;
pub mod file;
mod parts;
mod records;
mod wiring;
