// Devices that stand in for a part that nobody has chosen yet.
ghost use Rattle.std.specs.Prelude.{length};
ghost use Rattle.bank.specs.Laws.{SameKind};
ghost use Rattle.bank.specs.Makings.{Makes};
ghost use Rattle.bankrules.specs.Rules.{each_with_one, FirstWordsTell};
ghost use Rattle.bankrules.specs.Quiet.{quiet_hinders, quiet_adds, quiet_kind, quiet_word};
ghost use Rattle.bankrules.proofs.Telling.{quiet_errnos, quiet_words};

use crate::rule::Rule;
use crate::ruled::Ruled;
use bank::bank::Bank;
use bank::fault::MakeFault;
use bankrules::standing::Standing;
use std::alloc::Global;

// The rule of devices that stand in.
pub enum Quiet {}

impl Rule for Quiet {
    ghost hinders = { quiet_hinders };

    ghost adds = { quiet_adds };

    fn hindrance(_standing: Standing) -> u8 {
        0
    }

    fn added(_level: u8, word: u32) -> u32 {
        word
    }

    ghost errnos = { quiet_errnos };

    ghost words = { quiet_words };
}

// A bank of such devices.
pub type QuietBank = Ruled<Quiet>;

// A quiet device for each word, at level 0.
pub fn quiet_bank(heap: Global, words: &[u32]) -> Result<QuietBank, MakeFault>
    ensures made { Makes ⟦<QuietBank as Bank>⟧ (each_with_one words.now) (length words.now) result }
    ensures kind { SameKind ⟦<QuietBank as Bank>⟧.kind quiet_kind }
    ensures first_words { FirstWordsTell quiet_word ⟦<QuietBank as Bank>⟧.kind words.now }
{
    Ruled::new(heap, words)
}
