// The frame of a board file: its length and its trailer.
#![tactic(auto)]

pub mod frame;
pub mod limits;
pub mod table;
