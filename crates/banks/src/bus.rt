// Devices that sit on a bus, with device 0 as its controller.
ghost use Rattle.std.specs.Prelude.{◌≡◌, length};
ghost use Rattle.bank.specs.Laws.{SameKind};
ghost use Rattle.bank.specs.Makings.{Makes};
ghost use Rattle.bankrules.specs.Rules.{each_with_one, FirstWordsTell};
ghost use Rattle.bankrules.specs.Bus.{passed, bus_hinders, bus_adds, bus_kind, bus_word, MembersHeld};
ghost use Rattle.bankrules.proofs.Telling.{bus_errnos, bus_words};

use crate::register::BUSY;
use crate::rule::Rule;
use crate::ruled::Ruled;
use bank::bank::Bank;
use bank::fault::MakeFault;
use bankrules::standing::Standing;
use std::alloc::Global;

// EIO.
const UNREACHABLE: u8 = 5;

// The rule of devices that sit on a bus.
pub enum Bus {}

// Whether the controller has gone past this device.
fn is_passed(standing: Standing) -> bool
    ensures { result ≡ passed standing }
{
    standing.first_level >= 2 && standing.first_level > standing.level
}

impl Rule for Bus {
    ghost hinders = { bus_hinders };

    ghost adds = { bus_adds };

    fn hindrance(standing: Standing) -> u8 {
        if standing.device == 0 {
            0
        } else if is_passed(standing) {
            UNREACHABLE
        } else if standing.level == 1 && standing.word & 0xFF != 0 {
            BUSY
        } else {
            0
        }
    }

    fn added(level: u8, word: u32) -> u32 {
        match level {
            3 => 0,
            _ => word,
        }
    }

    ghost errnos = { bus_errnos };

    ghost words = { bus_words };
}

// A bank of such devices.
pub type BusBank = Ruled<Bus>;

// A bus device for each word, at level 0.
#[tactic(auto, using(bankrules::proofs::Telling::members_held))]
pub fn bus_bank(heap: Global, words: &[u32]) -> Result<BusBank, MakeFault>
    ensures made { Makes ⟦<BusBank as Bank>⟧ (each_with_one words.now) (length words.now) result }
    ensures kind { SameKind ⟦<BusBank as Bank>⟧.kind bus_kind }
    ensures first_words { FirstWordsTell bus_word ⟦<BusBank as Bank>⟧.kind words.now }
    ensures members { MembersHeld ⟦<BusBank as Bank>⟧.kind }
{
    Ruled::new(heap, words)
}
