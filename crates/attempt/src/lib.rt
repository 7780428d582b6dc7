// Runs of an engine: from its making to the close of one attempt, over any bank.
#![tactic(auto)]

pub mod attempt;
