// The banks that a board is made of.
#![tactic(auto)]

pub mod bus;
pub mod injector;
pub mod pair;
pub mod quiet;
pub mod register;
pub mod rule;
pub mod ruled;
