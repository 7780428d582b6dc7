// Devices that sit in registers.
ghost use Rattle.std.specs.Prelude.{length};
ghost use Rattle.bank.specs.Laws.{SameKind};
ghost use Rattle.bank.specs.Makings.{Makes};
ghost use Rattle.bankrules.specs.Rules.{each_with_one, FirstWordsTell};
ghost use Rattle.bankrules.specs.Register.{register_hinders, register_adds, register_kind, register_word};
ghost use Rattle.bankrules.proofs.Telling.{register_errnos, register_words};

use crate::rule::Rule;
use crate::ruled::Ruled;
use bank::bank::Bank;
use bank::fault::MakeFault;
use bankrules::standing::Standing;
use std::alloc::Global;

// EBUSY.
pub(crate) const BUSY: u8 = 16;

// The rule of devices that sit in registers.
pub enum Register {}

impl Rule for Register {
    ghost hinders = { register_hinders };

    ghost adds = { register_adds };

    fn hindrance(standing: Standing) -> u8 {
        if standing.level == 1 && standing.word >> 31 == 1 {
            BUSY
        } else {
            0
        }
    }

    fn added(level: u8, word: u32) -> u32 {
        match level {
            0 => word,
            1 => word & 0xFFFF_0000,
            2 => word & 0xFF00_0000,
            _ => 0,
        }
    }

    ghost errnos = { register_errnos };

    ghost words = { register_words };
}

// A bank of such devices.
pub type RegisterBank = Ruled<Register>;

// A register device for each word, at level 0.
pub fn register_bank(heap: Global, words: &[u32]) -> Result<RegisterBank, MakeFault>
    ensures made { Makes ⟦<RegisterBank as Bank>⟧ (each_with_one words.now) (length words.now) result }
    ensures kind { SameKind ⟦<RegisterBank as Bank>⟧.kind register_kind }
    ensures first_words { FirstWordsTell register_word ⟦<RegisterBank as Bank>⟧.kind words.now }
{
    Ruled::new(heap, words)
}
