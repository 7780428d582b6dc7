// The calls of an engine as values.

#[derive(Clone, Copy, PartialEq, Eq, Debug)]
pub enum Call {
    // Begins an attempt.
    Open,
    // One lowering, one raising, or the turn between them.
    Step,
    // A device asks that the board wake.
    Alarm { device: u8 },
    // Raises what is still lowered, and ends the attempt.
    Close,
    // Another working word for a device.
    Put { device: u8, word: u32 },
    // Level, working word and hindrance of a device.
    Look { device: u8 },
}
