// Reads many board files, good and damaged, and prints what each says or why it is refused. What it has to print comes
// from the model, which is written in another language from the documents alone.
#![tactic(auto)]

ghost use Rattle.std.specs.Prelude.{length};
ghost use Rattle.std.specs.Iterator.{at_most};

use anyhow::anyhow;
use board::board::Board;
use boardfile::device::Device;
use boardfile::fault::ReadFault;
use listing::lines::order_lines;
use refusal::Refusal;
use std::fs;

// What is left of the cases. Each is its length, as a number of two bytes, and then that many bytes.
#[derive(Clone, Copy)]
struct Cases<'a> {
    rest: &'a [u8],
}

// The bytes of each case, up to one that is cut short.
impl<'a> Iterator for Cases<'a> {
    type Item = anyhow::Result<&'a [u8]>;

    ghost remaining = { λ cases. at_most (length cases.rest.now) };

    fn next(&mut self) -> Option<anyhow::Result<&'a [u8]>> {
        let (size, rest) = self.rest.split_first_chunk::<2>()?;
        let size = usize::from(u16::from_le_bytes(*size));
        let Some((case, rest)) = rest.split_at_checked(size) else {
            self.rest = &[];
            return Some(Err(anyhow!("a case is cut short")));
        };
        self.rest = rest;
        Some(Ok(case))
    }
}

fn print_device(rt: &HostRuntime, device: &Device) -> anyhow::Result<()> {
    let Device { name, parent, word } = *device;
    match parent {
        Some(parent) => println!(rt; "device {name} {parent} {word}")?,
        None => println!(rt; "device {name} - {word}")?,
    }
    Ok(())
}

// Everything that the board has, and its devices in their order.
fn print_board(rt: &HostRuntime, board: &Board) -> anyhow::Result<()> {
    let kinds = board.kinds();
    println!(rt; "banks {} {} {}", kinds.register, kinds.bus, kinds.quiet)?;
    for device in board.devices() {
        print_device(rt, device)?;
    }
    for link in board.links() {
        println!(rt; "link {} {}", link.consumer, link.supplier)?;
    }
    let lines = order_lines(rt.alloc(), board)?;
    for line in lines.lines() {
        println!(rt; "order {line}")?;
    }
    Ok(())
}

fn print_case(rt: &HostRuntime, bytes: &[u8]) -> anyhow::Result<()> {
    match Board::read(rt.alloc(), bytes) {
        Ok(board) => print_board(rt, &board),
        Err(ReadFault::Board { fault }) => {
            println!(rt; "{}", Refusal::from(fault))?;
            Ok(())
        }
        Err(ReadFault::Memory) => Err(anyhow!("no memory")),
    }
}

fn print_cases(rt: &HostRuntime, all: &[u8]) -> anyhow::Result<()> {
    for (number, case) in (Cases { rest: all }).enumerate() {
        let case = case?;
        println!(rt; "# {number}")?;
        print_case(rt, case)?;
    }
    Ok(())
}

fn main(rt: HostRuntime) -> anyhow::Result<()> {
    let all = fs::read(&rt, "boards.bin")?;
    print_cases(&rt, &all)
}
