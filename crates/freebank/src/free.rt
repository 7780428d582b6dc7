// A bank for which the word that a lowering adds, and the hindrances after each change, are chosen outside: all that the meaning
// of a bank leaves to it.
mod calls;

ghost use Rattle.bank.specs.Meaning.{greatest_errno};
ghost use Rattle.bankrules.specs.Free.{AreErrnos};

use crate::choice::Choice;
use piles::piles::Piles;

// Words, what hinders each device, and the choices to come.
#[derive(Drop)]
pub struct FreeBank {
    piles: Piles,
    hindrances: [u8; 64],
    choices: Vec<Choice>,
    next: usize,
    ghost errnos: { AreErrnos greatest_errno hindrances },
}
