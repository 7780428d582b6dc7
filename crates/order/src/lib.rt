// The order in which the devices of a board are taken: each after its superiors, and of those that can be taken the
// least-numbered first. A superior of a device is one that it cannot do without: its parent, or the supplier of a link
// whose consumer it is. It is then a dependent of that superior.
#![tactic(auto)]

pub mod ordering;
mod set;
pub mod superiors;
