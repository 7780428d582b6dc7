// From the bytes of a board file to the board, and what can be asked of it.
ghost use Rattle.std.specs.Prelude.{◌≡◌, IfOk, vec_len};
ghost use Rattle.boardfile.specs.Layout.{device_count};
ghost use Rattle.boardfile.specs.Contents.{devices_of, links_of, AsciiNames, TellApart};
ghost use Rattle.boardfile.specs.Laws.{Laws};
ghost use Rattle.board.specs.Reading.{Reads, Exact};

use crate::board::Board;
use crate::board::checked::Checked;
use crate::parts::{device_in, link_in};
use crate::records::Records;
use boardfile::device::{Device, Kinds, Link};
use boardfile::fault::ReadFault;
use order::ordering::Order;
use order::superiors::Superiors;
use std::alloc::{AllocError, Global};

impl Records<'_> {
    // The devices that the records describe.
    pub(crate) fn devices(&self, heap: Global) -> Result<Vec<Device>, AllocError>
        ensures { IfOk result (λ v. (v.items ≡ devices_of self.now.frame.file.now) × (vec_len v ≡ device_count self.now.frame.file.now) × AsciiNames v.items × TellApart v.items) }
    {
        let records = self.frame.devices.records();
        let mut devices = Vec::with_capacity(heap, records.len())?;
        devices.extend(records.iter().filter_map(device_in))?;
        Ok(devices)
    }

    // The links that the records describe.
    pub(crate) fn links(&self, heap: Global) -> Result<Vec<Link>, AllocError>
        ensures { IfOk result (λ v. v.items ≡ links_of self.now.frame.file.now) }
    {
        let records = self.frame.links.records();
        let mut links = Vec::with_capacity(heap, records.len())?;
        links.extend(records.iter().filter_map(link_in))?;
        Ok(links)
    }
}

impl Board {
    // The board that the bytes of a board file describe, or the first rule that they break. Want of memory is met only
    // after all rules have been tested.
    pub fn read(heap: Global, bytes: &[u8]) -> Result<Board, ReadFault>
        ensures reads { Reads bytes.now result }
        ensures exact { Exact bytes.now result }
        ensures laws { Laws bytes.now }
    {
        Board::load(heap, bytes)
    }

    fn load(heap: Global, bytes: &[u8]) -> Result<Board, ReadFault>
        ensures { Reads bytes.now result }
    {
        Ok(Checked::new(bytes)?.board(heap)?)
    }

    // The devices by number.
    pub fn devices(&self) -> &[Device]
        ensures { result.now ≡ self.now.devices.items }
    {
        self.devices.as_slice()
    }

    // The links, as the file has them.
    pub fn links(&self) -> &[Link]
        ensures { result.now ≡ self.now.links.items }
    {
        self.links.as_slice()
    }

    // How many devices sit in each kind of bank.
    pub fn kinds(&self) -> Kinds
        ensures { result ≡ self.now.kinds }
    {
        self.kinds
    }

    // The order of the devices.
    pub fn order(&self) -> &Order
        ensures { result.now ≡ self.now.order }
    {
        &self.order
    }

    // Who is whose superior.
    pub fn superiors(&self) -> &Superiors
        ensures { result.now ≡ self.now.order.superiors }
    {
        self.order.superiors()
    }
}
