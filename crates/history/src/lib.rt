// Calls of an engine, what they answer, and what a history of calls tells: whether an attempt is under way, where it stands, how
// it ends, and what its journal says.
#![tactic(auto)]

pub mod answer;
pub mod call;
pub mod entry;
pub mod fault;
pub mod outcome;
pub mod phase;
pub mod standing;
