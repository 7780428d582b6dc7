// Errnos that are injected over another bank.
ghost use Rattle.std.specs.Prelude.{◌≡◌, ◌<◌, ◌+◌, slice_index_or, List, ℕ};
ghost use Rattle.bank.specs.Laws.{SameKind};
ghost use Rattle.bank.specs.Meaning.{greatest_errno};
ghost use Rattle.bankrules.specs.Injections.{Over, cell_into_next, injector_kind, AreCells};
ghost use Rattle.bankrules.proofs.Injecting.{injector_lawful};

use crate::ruled::code_of;
use bank::bank::Bank;
use bank::fault::BankFault;

// A bank with a cell for each device and level 1 to 4. One that is not zero is the errno of a device at the level before it,
// whatever hinders it below.
#[derive(Drop)]
pub struct Injector<B: Bank> {
    bank: B,
    cells: Vec<u8>,
    ghost bytes: { AreCells greatest_errno cells.items },
}

// The cell at a place, 0 where none is given.
fn cell_at(cells: &[u8], place: usize) -> u8
    ensures { result ≡ slice_index_or cells.now place 0 }
{
    cells.get(place).copied().unwrap_or(0)
}

impl<B: Bank> Injector<B> {
    // Byte 4 * d + p - 1 is the cell of device d for level p. Cells that are missing count as 0, and any past
    // those of the bank's devices have no effect.
    pub fn new(bank: B, cells: Vec<u8>) -> Injector<B>
        ensures made { ⟦<Injector<B> as Bank>⟧.model result ≡ (B.model bank, cells.items) }
        ensures kind { SameKind ⟦<Injector<B> as Bank>⟧.kind (injector_kind greatest_errno B.kind) }
        ensures over { Over greatest_errno B.kind }
    {
        Injector { bank, cells }
    }

    // The errno in the cell of a device for the level after this one; none where it is 0, and past the deepest level.
    fn cell(&self, device: u8, level: u8) -> u8
        ensures { result ≡ cell_into_next self.now.cells.items device level }
    {
        if level >= 4 {
            return 0;
        }
        let place = 4 * usize::from(device) + usize::from(level);
        cell_at(&self.cells, place)
    }
}

impl<B: Bank> Bank for Injector<B> {
    ghost Model = { B.Model × List ℕ };

    ghost model = { λ injector. (B.model injector.bank, injector.cells.items) };

    ghost kind = { injector_kind greatest_errno B.kind };

    #[tactic(auto, using(bankrules::proofs::Injecting::injected_count))]
    fn count(&self) -> u8 {
        self.bank.count()
    }

    #[tactic(auto, using(bankrules::proofs::Injecting::injected_count, bankrules::proofs::Injecting::injected_device))]
    fn look(&self, device: u8) -> Result<(u8, u32, u8), BankFault> {
        let (level, word, hindrance) = self.bank.look(device)?;
        match self.cell(device, level) {
            0 => Ok((level, word, hindrance)),
            errno => Ok((level, word, errno)),
        }
    }

    #[tactic(auto, using(bankrules::proofs::Injecting::injected_put_answer, bankrules::proofs::Injecting::injected_is_put))]
    fn put(&mut self, device: u8, word: u32) -> Result<(), BankFault> {
        Ok(self.bank.put(device, word)?)
    }

    #[tactic(auto, using(bankrules::proofs::Injecting::injected_count, bankrules::proofs::Injecting::injected_device))]
    fn lower(&mut self, device: u8) -> Result<i16, BankFault> {
        let (level, _, _) = self.bank.look(device)?;
        match self.cell(device, level) {
            0 => Ok(self.bank.lower(device)?),
            errno => Ok(code_of(errno)),
        }
    }

    #[tactic(auto, using(bankrules::proofs::Injecting::injected_raise_answer, bankrules::proofs::Injecting::injected_is_raised))]
    fn raise(&mut self, device: u8) -> Result<i16, BankFault> {
        Ok(self.bank.raise(device)?)
    }

    ghost kept = { λ injector. (B.kept injector.bank, injector.bytes) };

    ghost lawful = { injector_lawful greatest_errno B.kind B.lawful };
}
