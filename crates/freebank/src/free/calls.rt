// What a free bank answers, and what it chooses.
ghost use Rattle.std.specs.Prelude.{◌≡◌, drop, length, map, slice_index_or};
ghost use Rattle.bank.specs.Laws.{SameKind};
ghost use Rattle.bank.specs.Makings.{Makes};
ghost use Rattle.bank.specs.Meaning.{greatest_errno};
ghost use Rattle.bankrules.specs.Free.{Free, free_kind, next_choice};
ghost use Rattle.bankrules.specs.Rules.{each_with_one};
ghost use Rattle.bankrules.proofs.Freeing.{free_kept, free_lawful};
ghost use Rattle.piles.proofs.Rows.{table_is};
ghost use Rattle.freebank.specs.Choices.{chosen, to_come, to_come_fit};
ghost use Rattle.piles.specs.Tables.{words_in};

use crate::choice::{Choice, LAST};
use crate::free::FreeBank;
use bank::bank::Bank;
use bank::fault::{BankFault, MakeFault};
use piles::piles::Piles;
use std::alloc::Global;

impl FreeBank {
    // A device for each word, at level 0, with the hindrances of the first choice.
    #[tactic(auto, using(bankrules::proofs::Freeing::free_made_count))]
    pub fn new(
        heap: Global,
        words: &[u32],
        first: Choice,
        choices: Vec<Choice>,
    ) -> Result<FreeBank, MakeFault>
        ensures made { Makes ⟦<FreeBank as Bank>⟧ (record { piles = each_with_one words.now; hindrances = first.hindrances; choices = map chosen choices.items }) (length words.now) result }
        ensures kind { SameKind ⟦<FreeBank as Bank>⟧.kind (free_kind greatest_errno) }
    {
        Ok(FreeBank {
            piles: Piles::new(heap, words)?,
            hindrances: first.hindrances,
            choices,
            next: 0,
        })
    }

    // What hinders a device.
    fn hindrance(&self, device: u8) -> u8
        ensures { result ≡ slice_index_or self.now.hindrances device 0 }
    {
        let hindrance = self.hindrances.get(usize::from(device));
        hindrance.copied().unwrap_or(0)
    }

    // The next choice, which then is no longer to come.
    fn choose(&mut self) -> Choice
        ensures choice { chosen result ≡ next_choice (to_come self.old) }
        ensures rest { to_come self.new ≡ drop 1 (to_come self.old) }
        ensures others { (self.new.piles ≡ self.old.piles) × (self.new.hindrances ≡ self.old.hindrances) }
    {
        let Some(choice) = self.choices.get(self.next) else {
            return LAST;
        };
        let choice = *choice;
        self.next += 1;
        choice
    }
}

impl Bank for FreeBank {
    ghost Model = { Free };

    ghost model = { λ bank. record { piles = words_in bank.piles; hindrances = bank.hindrances; choices = to_come bank } };

    ghost kind = { free_kind greatest_errno };

    #[tactic(auto, using(bankrules::proofs::Freeing::free_count))]
    fn count(&self) -> u8 {
        self.piles.count()
    }

    #[tactic(auto, using(bankrules::proofs::Freeing::free_count, bankrules::proofs::Freeing::free_device))]
    fn look(&self, device: u8) -> Result<(u8, u32, u8), BankFault> {
        let pile = self.piles.pile(device)?;
        let hindrance = self.hindrance(device);
        Ok((pile.level(), pile.top(), hindrance))
    }

    #[tactic(auto, using(bankrules::proofs::Freeing::free_count, bankrules::proofs::Freeing::free_device))]
    fn put(&mut self, device: u8, word: u32) -> Result<(), BankFault> {
        let pile = self.piles.pile(device)?;
        let written = pile.with(word).ok_or(BankFault::WrongLevel { device })?;
        let Choice { hindrances, .. } = self.choose();
        self.hindrances = hindrances;
        self.piles.replace(device, written);
        Ok(())
    }

    #[tactic(auto, using(bankrules::proofs::Freeing::free_count, bankrules::proofs::Freeing::free_device))]
    fn lower(&mut self, device: u8) -> Result<i16, BankFault> {
        let pile = self.piles.pile(device)?;
        if pile.level() >= 4 {
            return Err(BankFault::WrongLevel { device });
        }
        let hindrance = self.hindrance(device);
        if hindrance > 0 {
            return Ok(-i16::from(hindrance));
        }
        let Choice { word, hindrances } = self.choose();
        let lowered = pile.pushed(word).ok_or(BankFault::WrongLevel { device })?;
        self.hindrances = hindrances;
        self.piles.replace(device, lowered);
        Ok(0)
    }

    #[tactic(auto, using(bankrules::proofs::Freeing::free_count, bankrules::proofs::Freeing::free_device))]
    fn raise(&mut self, device: u8) -> Result<i16, BankFault> {
        let pile = self.piles.pile(device)?;
        let raised = pile.popped().ok_or(BankFault::WrongLevel { device })?;
        let Choice { hindrances, .. } = self.choose();
        self.hindrances = hindrances;
        self.piles.replace(device, raised);
        Ok(0)
    }

    ghost kept = { λ bank. free_kept greatest_errno (words_in bank.piles) bank.hindrances (to_come bank) (table_is bank.piles) bank.errnos (to_come_fit bank) };

    ghost lawful = { free_lawful greatest_errno };
}
