// What the banks of a board do, as rules over lists of words, and that they keep the laws of a bank.
#![tactic(auto)]

pub mod standing;
