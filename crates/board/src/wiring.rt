// Who is whose superior on a board: parents, and the suppliers of links.
ghost use Rattle.std.specs.Prelude.{◌≡◌};
ghost use Rattle.boardfile.specs.Layout.{device_count};
ghost use Rattle.boardfile.specs.Contents.{ParentIn, LinkedIn};
ghost use Rattle.board.specs.Wiring.{Gains, Wired};

use crate::parts::{link_in, parent_in};
use crate::records::Records;
use order::superiors::Superiors;

impl Records<'_> {
    // Makes each device's parent a superior of it.
    fn add_parents(&self, superiors: &mut Superiors)
        requires { superiors.old.count ≡ device_count self.now.frame.file.now }
        ensures { Gains (ParentIn self.now.frame.file.now) superiors.old superiors.new }
    {
        for (i, record) in self.frame.devices.records().iter().enumerate() {
            if let Some(parent) = parent_in(record) {
                superiors.add(parent, i as u8).unwrap();
            }
        }
    }

    // Makes each link's supplier a superior of its consumer.
    fn add_links(&self, superiors: &mut Superiors)
        requires { superiors.old.count ≡ device_count self.now.frame.file.now }
        ensures { Gains (LinkedIn self.now.frame.file.now) superiors.old superiors.new }
    {
        for record in self.frame.links.records() {
            if let Some(link) = link_in(record) {
                superiors.add(link.supplier, link.consumer).unwrap();
            }
        }
    }

    // The superiors of the board.
    pub(crate) fn superiors(&self) -> Superiors
        ensures { Wired self.now.frame.file.now result }
    {
        let count = self.frame.devices.records().len();
        let mut superiors = Superiors::new(count as u8).unwrap();
        self.add_parents(&mut superiors);
        self.add_links(&mut superiors);
        superiors
    }
}
