// The devices of a board and the links between them.
mod names;
mod printing;

// The name of a device, as a board file has it: 8 bytes, of which those after the name are zero.
#[derive(Clone, Copy, PartialEq, Eq, Debug)]
pub struct Name {
    padded: [u8; 8],
}

// The bytes are not a name with its padding.
#[derive(Clone, Copy, PartialEq, Eq, Debug)]
pub struct NotAName;

// A device: its parent is the number of another, and its word is what it holds while it runs.
#[derive(Clone, Copy, PartialEq, Eq, Debug)]
pub struct Device {
    pub name: Name,
    pub parent: Option<u8>,
    pub word: u32,
}

// How many devices of a board sit in registers, how many on the bus, and how many are quiet.
#[derive(Clone, Copy, PartialEq, Eq, Debug)]
pub struct Kinds {
    pub register: u8,
    pub bus: u8,
    pub quiet: u8,
}

// A link makes its supplier a superior of its consumer.
#[derive(Clone, Copy, PartialEq, Eq, Debug)]
pub struct Link {
    pub consumer: u8,
    pub supplier: u8,
}
