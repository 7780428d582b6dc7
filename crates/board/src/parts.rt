// A record of a board file, taken apart.
ghost use Rattle.std.specs.Prelude.{◌≡◌};
ghost use Rattle.board.specs.Records.{parent_in, device_in, link_in};

use boardfile::device::{Device, Link, Name};
use frame::limits::{DeviceRecord, LinkRecord};

// The parent that a device record names.
pub(crate) fn parent_in(bytes: &DeviceRecord) -> Option<u8>
    ensures { result ≡ parent_in bytes.now }
{
    match bytes[8] {
        255 => None,
        number => Some(number),
    }
}

// The device that a record describes: nothing, unless it begins with a name and has zero bytes between parent and word.
pub(crate) fn device_in(bytes: &DeviceRecord) -> Option<Device>
    ensures { result ≡ device_in bytes.now }
{
    let Ok(name) = Name::try_from(&bytes[..8]) else {
        return None;
    };
    if bytes[9] != 0 || bytes[10] != 0 || bytes[11] != 0 {
        return None;
    }
    let [.., a, b, c, d] = *bytes;
    Some(Device {
        name,
        parent: parent_in(bytes),
        word: u32::from_le_bytes([a, b, c, d]),
    })
}

// The link that a record describes: nothing, unless its last two bytes are zero.
pub(crate) fn link_in(bytes: &LinkRecord) -> Option<Link>
    ensures { result ≡ link_in bytes.now }
{
    let [consumer, supplier, rest @ ..] = bytes.as_slice() else {
        return None;
    };
    if rest != b"\0\0".as_slice() {
        return None;
    }
    Some(Link {
        consumer: *consumer,
        supplier: *supplier,
    })
}
