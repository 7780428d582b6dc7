// The calls on a table of piles.
ghost use Rattle.std.specs.Prelude.{◌≡◌, ◌<◌, ◌≤◌, [], length, set, slice_index_or, MatchResult};
ghost use Rattle.bank.specs.declared.fault.BankFault.TheVariants.{NoDevice};
ghost use Rattle.piles.specs.Words.{words_of};
ghost use Rattle.piles.specs.Tables.{words_in, TableMade};

use crate::pile::Pile;
use crate::piles::Piles;
use bank::fault::{BankFault, MakeFault};
use std::alloc::Global;

impl Piles {
    // A device for each word, at level 0.
    #[tactic(auto, using(crate::proofs::Rows::rows_more), unfolding(crate::specs::Tables::words_in))]
    pub fn new(heap: Global, words: &[u32]) -> Result<Piles, MakeFault>
        ensures { TableMade words.now result }
    {
        if words.len() > 64 {
            return Err(MakeFault::from(BankFault::TooMany));
        }
        let mut piles = Vec::with_capacity(heap, words.len())?;
        for word in words {
            piles.push(Pile::new(*word))?;
        }
        Ok(Piles { piles })
    }

    #[tactic(auto, using(crate::proofs::Rows::row_count), unfolding(crate::specs::Tables::words_in))]
    pub fn count(&self) -> u8
        ensures { result ≡ length (words_in self.now) }
    {
        self.piles.len() as u8
    }

    // The pile of a device.
    #[tactic(auto, using(crate::proofs::Rows::row_count, crate::proofs::Rows::row_at), unfolding(crate::specs::Tables::words_in))]
    pub fn pile(&self, device: u8) -> Result<Pile, BankFault>
        ensures { MatchResult result (λ pile. (device < length (words_in self.now)) × (words_of pile ≡ slice_index_or (words_in self.now) device [])) (λ fault. (length (words_in self.now) ≤ device) × (fault ≡ NoDevice device)) }
    {
        let pile = self.piles.get(usize::from(device));
        Ok(*pile.ok_or(BankFault::NoDevice { device })?)
    }

    // Another pile for a device. Nothing changes where there is no such device.
    #[tactic(auto, using(crate::proofs::Rows::row_set, crate::proofs::Rows::row_past), unfolding(crate::specs::Tables::words_in))]
    pub fn replace(&mut self, device: u8, pile: Pile)
        ensures { words_in self.new ≡ set (words_in self.old) device (words_of pile) }
    {
        let place = usize::from(device);
        if place < self.piles.len() {
            self.piles[place] = pile;
        }
    }
}
