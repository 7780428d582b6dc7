// How a device stands: all that a rule sees of it.
#[derive(Clone, Copy)]
pub struct Standing {
    // Its number.
    pub device: u8,
    pub level: u8,
    // Its working word.
    pub word: u32,
    // The level of device 0 of the same bank.
    pub first_level: u8,
}
