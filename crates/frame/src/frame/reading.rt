// How the trailer is read.
ghost use Rattle.std.specs.Prelude.{◌≡◌, ◌+◌, ◌*◌, ◌≤◌, Decides, MatchResult};
ghost use Rattle.boardfile.specs.Layout.{trailer, two_bytes};
ghost use Rattle.boardfile.specs.Rules.{Sized, Marked, Counted, Framed};
ghost use Rattle.frame.specs.Reads.{CountsOf, Room, FrameOf, Unframed};

use crate::frame::Frame;
use crate::limits::{DEVICE_BYTES, LEAST_BYTES, LINK_BYTES, MOST_BYTES, MOST_DEVICES, MOST_LINKS};
use crate::table::Table;
use boardfile::device::Kinds;
use boardfile::fault::BoardFault;

// How many devices of each kind there are, and how many links.
#[derive(Clone, Copy)]
struct Counts {
    kinds: Kinds,
    devices: u8,
    links: u16,
}

// The trailer of a file that is neither too short nor too long, and where it begins.
#[derive(Clone, Copy)]
struct Trailer<'a> {
    file: &'a [u8],
    place: u16,
    ghost sized: { Sized file.now },
    ghost at: { place ≡ trailer file.now },
}

// Whether the tables have room for their records, and do not run into each other.
fn fits(t: usize, counts: &Counts, device_distance: usize, link_distance: usize) -> bool
    requires { t ≤ 65535 }
    ensures { Decides result (Room t counts.now device_distance link_distance) }
{
    let device_size = DEVICE_BYTES * usize::from(counts.devices);
    let link_size = LINK_BYTES * usize::from(counts.links);
    if device_distance < device_size
        || device_distance > t
        || link_distance < link_size
        || link_distance > t
    {
        return false;
    }
    let (devices, links) = (t - device_distance, t - link_distance);
    link_size == 0 || devices + device_size <= links || links + link_size <= devices
}

impl<'a> Trailer<'a> {
    fn find(file: &'a [u8]) -> Result<Trailer<'a>, BoardFault>
        ensures { MatchResult result (λ t. t.file.now ≡ file.now) (Unframed file.now) }
    {
        let size = file.len();
        if !(LEAST_BYTES..=MOST_BYTES).contains(&size) {
            return Err(BoardFault::Size);
        }
        Ok(Trailer {
            file,
            place: (size - LEAST_BYTES) as u16,
        })
    }

    // A number of two bytes, the low byte first.
    fn two_bytes(&self, at: usize) -> u16
        requires { at + 2 ≤ 16 }
        ensures { result ≡ two_bytes self.now.file.now (trailer self.now.file.now + at) }
    {
        let first = usize::from(self.place) + at;
        u16::from_le_bytes([self.file[first], self.file[first + 1]])
    }

    // The mark and the edition.
    fn check_mark(&self) -> Result<(), BoardFault>
        ensures { MatchResult result (λ _. Marked self.now.file.now) (Unframed self.now.file.now) }
    {
        let t = usize::from(self.place);
        if &self.file[t..t + 4] != b"SLPB".as_slice() || self.file[t + 4] != 1 {
            return Err(BoardFault::Mark { at: self.place });
        }
        Ok(())
    }

    // The counts, within their limits.
    fn counts(&self) -> Result<Counts, BoardFault>
        requires { Marked self.now.file.now }
        ensures { MatchResult result (λ counts. Counted self.now.file.now × CountsOf self.now.file.now counts) (Unframed self.now.file.now) }
    {
        let t = usize::from(self.place);
        let (register, bus, quiet) = (self.file[t + 5], self.file[t + 6], self.file[t + 7]);
        let devices = usize::from(register) + usize::from(bus) + usize::from(quiet);
        let links = self.two_bytes(8);
        let zero = self.file[t + 10] == 0 && self.file[t + 11] == 0;
        if devices == 0 || devices > MOST_DEVICES || usize::from(links) > MOST_LINKS || !zero {
            return Err(BoardFault::Counts { at: self.place });
        }
        let kinds = Kinds {
            register,
            bus,
            quiet,
        };
        Ok(Counts {
            kinds,
            devices: devices as u8,
            links,
        })
    }

    // The tables, which have their places.
    fn frame(&self, counts: &Counts) -> Result<Frame<'a>, BoardFault>
        requires marked { Marked self.now.file.now }
        requires counted { Counted self.now.file.now }
        requires counts { CountsOf self.now.file.now counts.now }
        ensures { MatchResult result (λ frame. Framed self.now.file.now × FrameOf self.now.file.now frame) (Unframed self.now.file.now) }
    {
        let (device_distance, link_distance) = (self.two_bytes(12), self.two_bytes(14));
        let t = usize::from(self.place);
        if !fits(
            t,
            counts,
            usize::from(device_distance),
            usize::from(link_distance),
        ) {
            return Err(BoardFault::Tables { at: self.place });
        }
        let devices = self.place - device_distance;
        let links = self.place - link_distance;
        Ok(Frame {
            file: self.file,
            kinds: counts.kinds,
            devices: Table::cut(self.file, devices, u16::from(counts.devices)),
            links: Table::cut(self.file, links, counts.links),
        })
    }
}

impl<'a> Frame<'a> {
    // The file with what its trailer says, or the first of the trailer's rules that is broken.
    pub fn read(file: &'a [u8]) -> Result<Frame<'a>, BoardFault>
        ensures { MatchResult result (λ frame. Framed file.now × FrameOf file.now frame) (Unframed file.now) }
    {
        let trailer = Trailer::find(file)?;
        trailer.check_mark()?;
        let counts = trailer.counts()?;
        trailer.frame(&counts)
    }
}
