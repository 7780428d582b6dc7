// The records of a board file: which are right.
ghost use Rattle.std.specs.Prelude.{◌≡◌, ℕ, ◌<◌, [], length, take, Decides, MatchOption, MatchResult, ◌≢◌, slice_index_or};
ghost use Rattle.std.specs.Int.{w64, to_le_bytes};
ghost use Rattle.boardfile.specs.Layout.{device_count, link_count};
ghost use Rattle.boardfile.specs.Rules.{RightDevice, RightDevices, RightLink, RightLinks, FirstWrong};
ghost use Rattle.boardfile.specs.Faults.{Refused};
ghost use Rattle.board.specs.Records.{IsParent};

use crate::parts::{device_in, link_in};
use boardfile::device::Link;
use boardfile::fault::BoardFault;
use frame::frame::Frame;
use frame::limits::DeviceRecord;

// A board file whose frame and records are right.
#[derive(Clone, Copy)]
pub(crate) struct Records<'a> {
    pub(crate) frame: Frame<'a>,
    ghost devices: { ∥ RightDevices frame.file.now ∥₁ },
    ghost links: { ∥ RightLinks frame.file.now ∥₁ },
}

// The name that a device record has, with its padding, as one number.
fn name_in(bytes: &DeviceRecord) -> u64
    ensures { to_le_bytes w64 result ≡ take 8 bytes.now }
{
    let [a, b, c, d, e, f, g, h, ..] = *bytes;
    u64::from_le_bytes([a, b, c, d, e, f, g, h])
}

// Whether no earlier record has the same name.
fn is_new(earlier: &[DeviceRecord], bytes: &DeviceRecord) -> bool
    ensures { Decides result ((j : ℕ) → j < length earlier.now → take 8 (slice_index_or earlier.now j []) ≢ take 8 bytes.now) }
{
    let name = name_in(bytes);
    earlier.iter().all(|other| name_in(other) != name)
}

// Whether this can be the parent of device `i` of `n`: none, or another.
fn is_parent(parent: Option<u8>, n: usize, i: usize) -> bool
    ensures { Decides result (IsParent n i parent) }
{
    parent.is_none_or(|parent| usize::from(parent) < n && usize::from(parent) != i)
}

// Whether there is a device record `i`, and it is right.
fn is_device(frame: &Frame<'_>, i: usize) -> bool
    ensures { Decides result ((i < device_count frame.now.file.now) × RightDevice frame.now.file.now i) }
{
    let records = frame.devices.records();
    let Some(record) = records.get(i) else {
        return false;
    };
    let Some(device) = device_in(record) else {
        return false;
    };
    is_parent(device.parent, records.len(), i) && is_new(&records[..i], record)
}

// Whether link record `j` is right.
fn is_link(frame: &Frame<'_>, j: usize) -> bool
    ensures { Decides result ((j < link_count frame.now.file.now) × RightLink frame.now.file.now j) }
{
    let Some(record) = frame.links.records().get(j) else {
        return false;
    };
    let n = frame.devices.records().len();
    link_in(record).is_some_and(|Link { consumer, supplier }| {
        usize::from(consumer) < n && usize::from(supplier) < n && consumer != supplier
    })
}

// The first device record that is wrong.
fn wrong_device(frame: &Frame<'_>) -> Option<usize>
    ensures { MatchOption result (RightDevices frame.now.file.now) (λ i. FirstWrong (RightDevice frame.now.file.now) (device_count frame.now.file.now) i) }
{
    (0..frame.devices.records().len()).find(|i| !is_device(frame, *i))
}

// The first link record that is wrong.
fn wrong_link(frame: &Frame<'_>) -> Option<usize>
    ensures { MatchOption result (RightLinks frame.now.file.now) (λ j. FirstWrong (RightLink frame.now.file.now) (link_count frame.now.file.now) j) }
{
    (0..frame.links.records().len()).find(|j| !is_link(frame, *j))
}

// Refuses the first device record that is wrong.
fn check_devices(frame: &Frame<'_>) -> Result<(), BoardFault>
    ensures { MatchResult result (λ _. RightDevices frame.now.file.now) (Refused frame.now.file.now) }
{
    match wrong_device(frame) {
        Some(i) => Err(BoardFault::DeviceRecord {
            at: frame.devices.place(i as u16) as u16,
        }),
        None => Ok(()),
    }
}

// Refuses the first link record that is wrong, where the device records are right.
fn check_links(frame: &Frame<'_>) -> Result<(), BoardFault>
    requires { RightDevices frame.now.file.now }
    ensures { MatchResult result (λ _. RightLinks frame.now.file.now) (Refused frame.now.file.now) }
{
    match wrong_link(frame) {
        Some(j) => Err(BoardFault::LinkRecord {
            at: frame.links.place(j as u16) as u16,
        }),
        None => Ok(()),
    }
}

impl<'a> Records<'a> {
    // The records of the bytes of a board file, or the first rule that they or the frame break.
    pub(crate) fn read(file: &'a [u8]) -> Result<Records<'a>, BoardFault>
        ensures { MatchResult result (λ records. records.frame.file.now ≡ file.now) (Refused file.now) }
    {
        let frame = Frame::read(file)?;
        check_devices(&frame)?;
        check_links(&frame)?;
        Ok(Records { frame })
    }
}
