// Files of test cases: banks of many shapes that are made of bytes, and calls of them. Only programs that are held to the model
// stand on it.
#![tactic(auto)]

pub mod bytes;
pub mod made;
pub mod shapes;
