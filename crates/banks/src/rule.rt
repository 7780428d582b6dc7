ghost use Rattle.std.specs.Prelude.{◌≡◌, ℕ, ◌<◌, ◌≤◌, ◌^◌};
ghost use Rattle.bank.specs.Meaning.{greatest_errno};
ghost use Rattle.bankrules.specs.declared.standing.Standing.{Standing};

use bankrules::standing::Standing;

// What the devices of a bank keep to. A rule has no state of its own, so its functions take no `self`.
pub trait Rule {
    // The errno that hinders a device which stands so, 0 for none.
    ghost hinders: { Standing → ℕ };

    // The word that a lowering adds, by the level that the device leaves and its working word.
    ghost adds: { ℕ → ℕ → ℕ };

    fn hindrance(standing: Standing) -> u8
        ensures { result ≡ hinders standing };

    fn added(level: u8, word: u32) -> u32
        ensures { result ≡ adds level word };

    ghost errnos: { (s : Standing) → hinders s ≤ greatest_errno };

    ghost words: { (level word : ℕ) → word < 2 ^ 32 → adds level word < 2 ^ 32 };
}
