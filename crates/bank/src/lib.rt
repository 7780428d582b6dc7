// What a bank is: the devices of a board behind one set of calls.
#![tactic(auto)]

pub mod bank;
pub mod call;
pub mod fault;
pub mod playing;
