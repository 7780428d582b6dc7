// Banks that are made of bytes.
use crate::bytes::Bytes;
use bank::bank::Bank;
use bank::fault::MakeFault;
use banks::bus::{BusBank, bus_bank};
use banks::injector::Injector;
use banks::pair::Pair;
use banks::quiet::{QuietBank, quiet_bank};
use banks::register::{RegisterBank, register_bank};
use freebank::choice::Choice;
use freebank::free::FreeBank;
use std::alloc::Global;

// A bank that is made of bytes; what is read of them does not depend on whether the making is refused.
pub trait Made: Bank + Drop {
    fn made(heap: Global, bytes: &mut Bytes) -> anyhow::Result<Result<Self, MakeFault>>;
}

impl Made for RegisterBank {
    fn made(heap: Global, bytes: &mut Bytes) -> anyhow::Result<Result<Self, MakeFault>> {
        Ok(register_bank(heap, &bytes.words(heap)?))
    }
}

impl Made for BusBank {
    fn made(heap: Global, bytes: &mut Bytes) -> anyhow::Result<Result<Self, MakeFault>> {
        Ok(bus_bank(heap, &bytes.words(heap)?))
    }
}

impl Made for QuietBank {
    fn made(heap: Global, bytes: &mut Bytes) -> anyhow::Result<Result<Self, MakeFault>> {
        Ok(quiet_bank(heap, &bytes.words(heap)?))
    }
}

// The two as one, if neither is refused.
fn paired<L: Bank + Drop, R: Bank + Drop>(
    left: Result<L, MakeFault>,
    right: Result<R, MakeFault>,
) -> Result<Pair<L, R>, MakeFault> {
    Ok(Pair::new(left?, right?)?)
}

impl<L: Made, R: Made> Made for Pair<L, R> {
    fn made(heap: Global, bytes: &mut Bytes) -> anyhow::Result<Result<Self, MakeFault>> {
        let left = L::made(heap, bytes)?;
        let right = R::made(heap, bytes)?;
        Ok(paired(left, right))
    }
}

impl<B: Made> Made for Injector<B> {
    fn made(heap: Global, bytes: &mut Bytes) -> anyhow::Result<Result<Self, MakeFault>> {
        let below = B::made(heap, bytes)?;
        let count = bytes.number()?;
        let cells = bytes.take(usize::from(count))?.to_vec(heap)?;
        Ok(below.map(|bank| Injector::new(bank, cells)))
    }
}

impl Made for FreeBank {
    fn made(heap: Global, bytes: &mut Bytes) -> anyhow::Result<Result<Self, MakeFault>> {
        let words = bytes.words(heap)?;
        let hindrances = bytes.array::<64>()?;
        let first = Choice::new(0, &hindrances);
        let choices = bytes.choices(heap)?;
        Ok(FreeBank::new(heap, &words, first, choices))
    }
}
