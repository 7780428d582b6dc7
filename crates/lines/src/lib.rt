// The lines of a run, in buffers of the caller's.
#![tactic(auto)]

mod fields;
mod refusals;
pub mod report;
mod words;

pub use refusals::refusal_line;

// No line has more bytes than this, and no buffer for one may have fewer.
pub const LINE_ROOM: usize = 32;
