// What is told of a refusal, whichever layer refused.
#![tactic(auto)]

mod layer;
mod refusal;

pub use layer::Layer;
pub use refusal::Refusal;

#[cfg(test)]
mod tests;
