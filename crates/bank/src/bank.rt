ghost use Rattle.std.specs.Prelude.{◌≡◌, length, if◌then◌else◌};
ghost use Rattle.bank.specs.Laws.{Kind, Laws};
ghost use Rattle.bank.specs.Meaning.{greatest_errno, seen, put_answer, lower_answer, raise_answer, is_put, is_lowered, is_raised};

use crate::fault::BankFault;

// A fixed count of devices, 0 to 64, behind one set of calls. Each device has a pile of one to five words, of which the top is its
// working word, and a hindrance, the errno that it answers, negated, where it is lowered and something hinders it; 0 is none. Its
// level is the number of its words less one.
//
// Each implementation says by its ghost members what a bank of its kind does; the contracts of the calls then say exactly what is
// answered and what the bank's model is afterwards, in which lies all that it will ever answer. Of any bank at all the laws below
// are known.
//
// A call for a number that is not below the count is refused with `NoDevice`, before anything else is tested. A call that is
// refused changes nothing. After a put, a lowering with code 0 or a raising the hindrances of all devices may be others.
pub trait Bank {
    // What the answers of the bank depend on, as a value of the kind's own choice.
    ghost Model: { Type 0 };

    // What a bank stands for.
    ghost model: { Self → Model };

    // What a bank of this kind shows, does and keeps.
    ghost kind: { Kind Model };

    // A number is a device's where it is below this count.
    fn count(&self) -> u8
        ensures { result ≡ length (kind.devices (model self.now)) };

    // Level, working word and hindrance of a device. Nothing changes.
    fn look(&self, device: u8) -> Result<(u8, u32, u8), BankFault>
        ensures { result ≡ seen (kind.devices (model self.now)) device };

    // Another working word for a device at level 0. Refused with `WrongLevel` at another level.
    fn put(&mut self, device: u8, word: u32) -> Result<(), BankFault>
        ensures answer { result ≡ put_answer (kind.devices (model self.old)) device }
        ensures after { model self.new ≡ (if is_put (kind.devices (model self.old)) device then kind.written (model self.old) device word else model self.old) };

    // One level deeper. The code is 0 where that is done, and otherwise the hindrance negated; then nothing changes. Refused with
    // `WrongLevel` at level 4, whatever the hindrance.
    fn lower(&mut self, device: u8) -> Result<i16, BankFault>
        ensures answer { result ≡ lower_answer (kind.devices (model self.old)) device }
        ensures after { model self.new ≡ (if is_lowered (kind.devices (model self.old)) device then kind.lowered (model self.old) device else model self.old) };

    // One level up; the code is 0. Refused with `WrongLevel` at level 0.
    fn raise(&mut self, device: u8) -> Result<i16, BankFault>
        ensures answer { result ≡ raise_answer (kind.devices (model self.old)) device }
        ensures after { model self.new ≡ (if is_raised (kind.devices (model self.old)) device then kind.raised (model self.old) device else model self.old) };

    // Every bank of this type stands for a model that is sound, however the bank was come by.
    ghost kept: { (bank : Self) → kind.sound (model bank) };

    // What every kind keeps to: what a sound model shows are devices; a lowering that is taken adds one word to that device's pile,
    // a raising takes one off, a put replaces the only one; no other pile changes, and the model stays sound.
    ghost lawful: { Laws greatest_errno kind };
}
