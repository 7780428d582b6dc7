// What a board file is: devices and links as it describes them, and the rules that it can break. The layout and the rules
// stand in specs/.
#![tactic(auto)]

pub mod device;
pub mod fault;
