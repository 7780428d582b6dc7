// The calls of a bank as values.

#[derive(Clone, Copy, PartialEq, Eq, Debug)]
pub enum Call {
    Count,
    Look { device: u8 },
    Put { device: u8, word: u32 },
    Lower { device: u8 },
    Raise { device: u8 },
}

// What is answered where a call is not refused.
#[derive(Clone, Copy, PartialEq, Eq, Debug)]
pub enum Reply {
    // So many devices.
    Counted { count: u8 },
    // A device's level, working word and hindrance.
    Seen { level: u8, word: u32, hindrance: u8 },
    // The word is put.
    Done,
    // The code of a lowering or a raising.
    Code { code: i16 },
}
