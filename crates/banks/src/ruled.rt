// A bank of devices that keep to a rule.
ghost use Rattle.std.specs.Prelude.{◌≡◌, ◌≤◌, ◌<◌, ◌-◌, [], slice_index_or, length, MatchResult, List, ℕ, pos, neg_ℤ};
ghost use Rattle.bank.specs.declared.fault.BankFault.TheVariants.{NoDevice};
ghost use Rattle.piles.specs.Words.{words_of};
ghost use Rattle.piles.specs.Tables.{words_in};
ghost use Rattle.bankrules.specs.Rules.{standing as standing_of, each_with_one, ruled_kind};
ghost use Rattle.bank.specs.Makings.{Makes};
ghost use Rattle.bank.specs.Meaning.{greatest_errno};
ghost use Rattle.bankrules.proofs.Ruling.{ruled_lawful};
ghost use Rattle.piles.proofs.Rows.{table_is};

use crate::rule::Rule;
use bank::bank::Bank;
use bank::fault::{BankFault, MakeFault};
use bankrules::standing::Standing;
use piles::pile::Pile;
use piles::piles::Piles;
use std::alloc::Global;
use std::marker::PhantomData;

// The devices of a bank that keep to the rule R.
#[derive(Drop)]
pub struct Ruled<R: Rule> {
    piles: Piles,
    rule: PhantomData<R>,
}

// An errno as the code of a lowering that is not taken.
pub(crate) fn code_of(errno: u8) -> i16
    ensures { result ≡ neg_ℤ (pos errno) }
{
    -i16::from(errno)
}

impl<R: Rule> Ruled<R> {
    // A device for each word, at level 0.
    #[tactic(auto, using(bankrules::proofs::Ruling::made_count))]
    pub(crate) fn new(heap: Global, words: &[u32]) -> Result<Ruled<R>, MakeFault>
        ensures { Makes ⟦<Ruled<R> as Bank>⟧ (each_with_one words.now) (length words.now) result }
    {
        Ok(Ruled {
            piles: Piles::new(heap, words)?,
            rule: PhantomData,
        })
    }

    // The level of device 0; 0 where there is none.
    fn first_level(&self) -> u8
        ensures { result ≡ length (slice_index_or (words_in self.now.piles) 0 []) - 1 }
    {
        match self.piles.pile(0) {
            Ok(first) => first.level(),
            Err(_) => 0,
        }
    }

    // The pile of a device, and how it stands.
    fn find(&self, device: u8) -> Result<(Pile, Standing), BankFault>
        ensures { MatchResult result (λ found. (device < length (words_in self.now.piles)) × (words_of found.0 ≡ slice_index_or (words_in self.now.piles) device []) × (found.1 ≡ standing_of (words_in self.now.piles) device)) (λ fault. (length (words_in self.now.piles) ≤ device) × (fault ≡ NoDevice device)) }
    {
        let pile = self.piles.pile(device)?;
        let standing = Standing {
            device,
            level: pile.level(),
            word: pile.top(),
            first_level: self.first_level(),
        };
        Ok((pile, standing))
    }
}

impl<R: Rule> Bank for Ruled<R> {
    ghost Model = { List (List ℕ) };

    ghost model = { λ bank. words_in bank.piles };

    ghost kind = { ruled_kind R.hinders R.adds };

    #[tactic(auto, using(bankrules::proofs::Ruling::ruled_count))]
    fn count(&self) -> u8 {
        self.piles.count()
    }

    #[tactic(auto, using(bankrules::proofs::Ruling::ruled_count, bankrules::proofs::Ruling::ruled_device))]
    fn look(&self, device: u8) -> Result<(u8, u32, u8), BankFault> {
        let (_, standing) = self.find(device)?;
        Ok((standing.level, standing.word, R::hindrance(standing)))
    }

    #[tactic(auto, using(bankrules::proofs::Ruling::ruled_count, bankrules::proofs::Ruling::ruled_device))]
    fn put(&mut self, device: u8, word: u32) -> Result<(), BankFault> {
        let pile = self.piles.pile(device)?;
        let written = pile.with(word).ok_or(BankFault::WrongLevel { device })?;
        self.piles.replace(device, written);
        Ok(())
    }

    #[tactic(auto, using(bankrules::proofs::Ruling::ruled_count, bankrules::proofs::Ruling::ruled_device))]
    fn lower(&mut self, device: u8) -> Result<i16, BankFault> {
        let (pile, standing) = self.find(device)?;
        let added = R::added(standing.level, standing.word);
        let lowered = pile.pushed(added).ok_or(BankFault::WrongLevel { device })?;
        let hindrance = R::hindrance(standing);
        if hindrance > 0 {
            return Ok(code_of(hindrance));
        }
        self.piles.replace(device, lowered);
        Ok(0)
    }

    #[tactic(auto, using(bankrules::proofs::Ruling::ruled_count, bankrules::proofs::Ruling::ruled_device))]
    fn raise(&mut self, device: u8) -> Result<i16, BankFault> {
        let pile = self.piles.pile(device)?;
        let raised = pile.popped().ok_or(BankFault::WrongLevel { device })?;
        self.piles.replace(device, raised);
        Ok(0)
    }

    ghost kept = { λ bank. table_is bank.piles };

    ghost lawful = { ruled_lawful greatest_errno R.hinders R.adds R.errnos R.words };
}
