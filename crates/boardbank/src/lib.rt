// The bank of a board: an injector on a pair of a register bank and a pair of a bus and a quiet bank.
#![tactic(auto)]

ghost use Rattle.bank.specs.Laws.{SameKind};
ghost use Rattle.boardbank.specs.Boards.{MakesBoard, board_kind};

use bank::bank::Bank;
use bank::fault::MakeFault;
use banks::bus::{BusBank, bus_bank};
use banks::injector::Injector;
use banks::pair::Pair;
use banks::quiet::{QuietBank, quiet_bank};
use banks::register::{RegisterBank, register_bank};
use std::alloc::Global;

pub type BoardBank = Injector<Pair<RegisterBank, Pair<BusBank, QuietBank>>>;

// The bank of a board with these words and cells, of which each device is at level 0.
pub fn board_bank(
    heap: Global,
    registers: &[u32],
    buses: &[u32],
    quiets: &[u32],
    cells: Vec<u8>,
) -> Result<BoardBank, MakeFault>
    ensures kind { SameKind ⟦<BoardBank as Bank>⟧.kind board_kind }
    ensures made { MakesBoard ⟦<BoardBank as Bank>⟧.model (record { registers = registers.now; buses = buses.now; quiets = quiets.now; cells = cells.items }) result }
{
    let others = Pair::new(bus_bank(heap, buses)?, quiet_bank(heap, quiets)?)?;
    let all = Pair::new(register_bank(heap, registers)?, others)?;
    Ok(Injector::new(all, cells))
}
