// The engine that takes the devices of a bank down, phase by phase, and brings them up again the way they went.
#![tactic(auto)]

// Lowerings and raisings of a bank.
mod banks;
pub mod engine;
pub mod ticket;
// The device and the phase of each lowering.
mod turns;
