// Two banks as one.
ghost use Rattle.std.specs.Prelude.{◌≡◌, ◌<◌, ◌≤◌, ◌+◌, ◌-◌, if◌then◌else◌, nat_lt, ◌↔◌, length, IfErr, IfOk, IsErr};
ghost use Rattle.bank.specs.Laws.{SameKind};
ghost use Rattle.bank.specs.Meaning.{greatest_errno, most_devices};
ghost use Rattle.bank.specs.declared.fault.BankFault.TheVariants.{TooMany as Many};
ghost use Rattle.bank.specs.declared.fault.MakeFault.TheVariants.{Bank as Refused};
ghost use Rattle.banks.specs.declared.pair.Side.TheVariants.{Left, Right};
ghost use Rattle.bankrules.specs.Pairs.{Apart, behind, answer_behind, pair_kind};
ghost use Rattle.bankrules.proofs.Pairing.{pair_lawful};

use bank::bank::Bank;
use bank::fault::{BankFault, MakeFault};

// The devices of two banks: numbers below the left count are the left's, the others the right's, with the left count taken
// off.
#[derive(Drop)]
pub struct Pair<L: Bank, R: Bank> {
    left: L,
    right: R,
    ghost few: { length (L.kind.devices (L.model left)) + length (R.kind.devices (R.model right)) ≤ most_devices },
}

// Two banks that are no pair, and why.
#[derive(Drop)]
pub struct Unpaired<L: Bank, R: Bank> {
    pub fault: BankFault,
    pub left: L,
    pub right: R,
}

// The two banks are dropped.
impl<L: Bank + Drop, R: Bank + Drop> From<Unpaired<L, R>> for MakeFault {
    ghost from_gives = { λ parts r. r ≡ Refused parts.fault };

    fn from(parts: Unpaired<L, R>) -> MakeFault {
        MakeFault::from(parts.fault)
    }
}

impl<L: Bank, R: Bank> Pair<L, R> {
    // Refused where there are more than 64 devices; both banks are then handed back.
    pub fn new(left: L, right: R) -> Result<Pair<L, R>, Unpaired<L, R>>
        ensures made { IfOk result (λ pair. ⟦<Pair<L, R> as Bank>⟧.model pair ≡ (L.model left, R.model right)) }
        ensures parts { IfErr result (λ parts. (parts.left ≡ left) × (parts.right ≡ right) × (parts.fault ≡ Many)) }
        ensures many { IsErr result ↔ (most_devices < length (L.kind.devices (L.model left)) + length (R.kind.devices (R.model right))) }
        ensures kind { SameKind ⟦<Pair<L, R> as Bank>⟧.kind (pair_kind L.kind R.kind) }
        ensures apart { Apart L.kind R.kind }
    {
        let count = u16::from(left.count()) + u16::from(right.count());
        if count > 64 {
            let fault = BankFault::TooMany;
            return Err(Unpaired { fault, left, right });
        }
        Ok(Pair { left, right })
    }
}

// A fault of a bank that has this many devices before it.
#[derive(Clone, Copy)]
struct Behind {
    fault: BankFault,
    before: u8,
}

// The devices before it are counted again.
impl From<Behind> for BankFault {
    ghost from_gives = { λ b r. r ≡ behind b.before b.fault };

    fn from(behind: Behind) -> BankFault {
        let Behind { fault, before } = behind;
        let counted = |device: u8| device.saturating_add(before);
        match fault {
            BankFault::NoDevice { device } => BankFault::NoDevice {
                device: counted(device),
            },
            BankFault::WrongLevel { device } => BankFault::WrongLevel {
                device: counted(device),
            },
            BankFault::TooMany => BankFault::TooMany,
        }
    }
}

// What a bank answers that has this many devices before it.
fn from_right<T>(answer: Result<T, BankFault>, before: u8) -> Result<T, BankFault>
    ensures { result ≡ answer_behind before answer }
{
    Ok(answer.map_err(|fault| Behind { fault, before })?)
}

// Where a device is, and its number there.
enum Side {
    Left,
    Right { device: u8, before: u8 },
}

impl<L: Bank, R: Bank> Pair<L, R> {
    fn side(&self, device: u8) -> Side
        ensures { result ≡ (if nat_lt device (length (L.kind.devices (L.model self.now.left))) then Left else Right (device - length (L.kind.devices (L.model self.now.left))) (length (L.kind.devices (L.model self.now.left)))) }
    {
        let before = self.left.count();
        if device < before {
            return Side::Left;
        }
        Side::Right {
            device: device - before,
            before,
        }
    }
}

impl<L: Bank, R: Bank> Bank for Pair<L, R> {
    ghost Model = { L.Model × R.Model };

    ghost model = { λ pair. (L.model pair.left, R.model pair.right) };

    ghost kind = { pair_kind L.kind R.kind };

    fn count(&self) -> u8 {
        self.left.count().saturating_add(self.right.count())
    }

    fn look(&self, device: u8) -> Result<(u8, u32, u8), BankFault> {
        match self.side(device) {
            Side::Left => self.left.look(device),
            Side::Right { device, before } => from_right(self.right.look(device), before),
        }
    }

    fn put(&mut self, device: u8, word: u32) -> Result<(), BankFault> {
        match self.side(device) {
            Side::Left => self.left.put(device, word),
            Side::Right { device, before } => from_right(self.right.put(device, word), before),
        }
    }

    fn lower(&mut self, device: u8) -> Result<i16, BankFault> {
        match self.side(device) {
            Side::Left => self.left.lower(device),
            Side::Right { device, before } => from_right(self.right.lower(device), before),
        }
    }

    fn raise(&mut self, device: u8) -> Result<i16, BankFault> {
        match self.side(device) {
            Side::Left => self.left.raise(device),
            Side::Right { device, before } => from_right(self.right.raise(device), before),
        }
    }

    ghost kept = { λ pair. (L.kept pair.left, R.kept pair.right, pair.few) };

    ghost lawful = { pair_lawful greatest_errno L.kind R.kind L.lawful R.lawful };
}
