// Why a program refuses its files or a call, and what is told of it.
#![tactic(auto)]

pub mod fault;
