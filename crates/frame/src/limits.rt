// The limits of a board file, and of its records.
pub const LEAST_BYTES: usize = 16;

pub const MOST_BYTES: usize = 4096;

pub const MOST_DEVICES: usize = 64;

pub const MOST_LINKS: usize = 256;

pub const DEVICE_BYTES: usize = 16;

pub const LINK_BYTES: usize = 4;

// The bytes of a device record, and of a link record.
pub type DeviceRecord = [u8; DEVICE_BYTES];

pub type LinkRecord = [u8; LINK_BYTES];
