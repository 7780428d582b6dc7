// Running banks: what a refused making hands back, and refusals that come up.
use bank::bank::Bank;
use bank::fault::{BankFault, MakeFault};
use banks::bus::bus_bank;
use banks::injector::Injector;
use banks::pair::Pair;
use banks::quiet::quiet_bank;
use banks::register::register_bank;
use refusal::{Layer, Refusal};
use std::test::Fail;

#[test]
fn sixty_five_are_too_many(rt: HostRuntime) {
    let fault = BankFault::TooMany;
    let most = [0; 64];
    let more = [0; 65];
    assert!(rt; register_bank(rt.alloc(), &most).is_ok());
    assert!(rt; register_bank(rt.alloc(), &more).err() == Some(MakeFault::Bank { fault }));
    assert!(rt; bus_bank(rt.alloc(), &more).err() == Some(MakeFault::Bank { fault }));
    assert!(rt; quiet_bank(rt.alloc(), &more).err() == Some(MakeFault::Bank { fault }));
}

#[test]
fn a_refused_pair_hands_its_banks_back(rt: HostRuntime) -> Result<(), Fail> {
    let words = [7; 33];
    let left = register_bank(rt.alloc(), &words).ok().ok_or("no bank")?;
    let right = quiet_bank(rt.alloc(), &words[1..]).ok().ok_or("no bank")?;
    let parts = Pair::new(left, right).err().ok_or("a pair of 65")?;
    assert!(rt; parts.fault == BankFault::TooMany);
    assert!(rt; parts.left.count() == 33);
    assert!(rt; parts.right.count() == 32);
    assert!(rt; parts.right.look(31) == Ok((0, 7, 0)));
    Ok(())
}

#[test]
fn faults_come_up_through_pair_and_injector(rt: HostRuntime) -> Result<(), Fail> {
    let left = quiet_bank(rt.alloc(), &[1, 2]).ok().ok_or("no bank")?;
    let right = bus_bank(rt.alloc(), &[3, 0x400]).ok().ok_or("no bank")?;
    let pair = Pair::new(left, right).ok().ok_or("no pair")?;
    let mut cells = Vec::new(rt.alloc());
    cells.extend_from_slice(&[0; 15])?;
    cells.push(110)?;
    let mut bank = Injector::new(pair, cells);
    assert!(rt; bank.raise(3) == Err(BankFault::WrongLevel { device: 3 }));
    assert!(rt; bank.lower(4) == Err(BankFault::NoDevice { device: 4 }));
    for _ in 0..3 {
        assert!(rt; bank.lower(3) == Ok(0));
    }
    assert!(rt; bank.look(3) == Ok((3, 0x400, 110)));
    assert!(rt; bank.lower(3) == Ok(-110));
    assert!(rt; bank.look(3) == Ok((3, 0x400, 110)));
    Ok(())
}

#[test]
fn faults_are_told(rt: HostRuntime) {
    let told = Refusal {
        layer: Layer::Bank,
        number: 26,
        place: 9,
    };
    assert!(rt; Refusal::from(BankFault::WrongLevel { device: 9 }) == told);
}
