// The shapes of the banks.
use crate::bytes::Bytes;
use crate::made::Made;
use anyhow::anyhow;
use banks::bus::BusBank;
use banks::injector::Injector;
use banks::pair::Pair;
use banks::quiet::QuietBank;
use banks::register::RegisterBank;
use freebank::free::FreeBank;

type Controlled = Pair<RegisterBank, BusBank>;

type Others = Pair<BusBank, QuietBank>;

// The bank of a board.
type Board = Injector<Pair<RegisterBank, Others>>;

type Both = Injector<Pair<Injector<BusBank>, Injector<RegisterBank>>>;

// What is printed of a case whose bank has a shape that is known.
pub trait Case {
    fn print<B: Made>(rt: &HostRuntime, bytes: &mut Bytes) -> anyhow::Result<()>;
}

// The first byte of a case tells the shape.
pub fn print_case<C: Case>(rt: &HostRuntime, bytes: &mut Bytes) -> anyhow::Result<()> {
    match bytes.byte()? {
        0 => C::print::<RegisterBank>(rt, bytes),
        1 => C::print::<BusBank>(rt, bytes),
        2 => C::print::<QuietBank>(rt, bytes),
        3 => C::print::<Controlled>(rt, bytes),
        4 => C::print::<Pair<Controlled, QuietBank>>(rt, bytes),
        5 => C::print::<Pair<RegisterBank, Others>>(rt, bytes),
        6 => C::print::<Injector<BusBank>>(rt, bytes),
        7 => C::print::<Board>(rt, bytes),
        8 => C::print::<Both>(rt, bytes),
        9 => C::print::<Injector<Injector<QuietBank>>>(rt, bytes),
        10 => C::print::<FreeBank>(rt, bytes),
        11 => C::print::<Pair<FreeBank, RegisterBank>>(rt, bytes),
        12 => C::print::<Injector<FreeBank>>(rt, bytes),
        13 => C::print::<Pair<Injector<BusBank>, FreeBank>>(rt, bytes),
        _ => Err(anyhow!("no bank has this shape")),
    }
}

// Prints cases, one after another, up to the end of the bytes.
pub fn print_cases<C: Case>(rt: &HostRuntime, all: &[u8]) -> anyhow::Result<()> {
    let mut bytes = Bytes { rest: all };
    for number in 0..all.len() {
        if bytes.rest.is_empty() {
            return Ok(());
        }
        println!(rt; "# {number}")?;
        print_case::<C>(rt, &mut bytes)?;
    }
    Ok(())
}
