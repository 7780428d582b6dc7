// Runs of whole boards, what-ifs and lines in buffers.
use crate::worked_board;
use history::fault::EngineFault;
use history::outcome::Outcome;
use history::phase::Phase;
use lines::refusal_line;
use lines::report::Report;
use program::fault::{ProgramFault, RunFault};
use refusal::{Layer, Refusal};
use run::running::run;
use run::whatif::what_if;
use runlisting::printing::{Ending, sleep};
use std::alloc::Global;
use std::test::Fail;

// i2c, device 1, is hindered by 110 on its way into level 2.
const I2C_REFUSES: [u8; 12] = [0, 0, 0, 0, 0, 110, 0, 0, 0, 0, 0, 0];

// The board file of clk, i2c and lcd.
fn three() -> Result<&'static [u8], Fail> {
    let file = worked_board(0).ok_or("no such case")?;
    Ok(file)
}

fn report(heap: Global) -> Result<Report, Fail> {
    let report = run(heap, three()?, &I2C_REFUSES).ok().ok_or("no run")?;
    Ok(report)
}

#[test]
fn i2c_refuses_to_suspend(rt: HostRuntime) -> Result<(), Fail> {
    let mut written = Vec::new(rt.alloc());
    let ending = sleep(rt.alloc(), three()?, &I2C_REFUSES, &mut written)?;
    let expected = b"clk prepare 0\ni2c prepare 0\nlcd prepare 0\nlcd suspend 0\n\
        i2c suspend -110\nlcd resume 0\nlcd complete 0\ni2c complete 0\nclk complete 0\n\
        = fault 110 i2c suspend 4\n";
    assert!(rt; ending == Ending::Ran);
    assert!(rt; written.as_slice() == expected.as_slice());
    Ok(())
}

#[test]
fn a_short_sheet_is_refused(rt: HostRuntime) -> Result<(), Fail> {
    let mut written = Vec::new(rt.alloc());
    let ending = sleep(rt.alloc(), three()?, &I2C_REFUSES[1..], &mut written)?;
    assert!(rt; ending == Ending::Refused);
    assert!(rt; written.as_slice() == b"! 3 8 0\n".as_slice());
    Ok(())
}

#[test]
fn a_what_if_leaves_the_sheet(rt: HostRuntime) -> Result<(), Fail> {
    let mut sheet = I2C_REFUSES;
    let slept = Outcome::Slept {
        alarm: None,
        taken: 12,
    };
    assert!(rt; what_if(rt.alloc(), three()?, &mut sheet, 1, 2, 0) == Ok(slept));
    assert!(rt; sheet == I2C_REFUSES);
    let fault = Outcome::Fault {
        errno: 7,
        device: 2,
        phase: Phase::Prepare,
        taken: 2,
    };
    assert!(rt; what_if(rt.alloc(), three()?, &mut sheet, 2, 1, 7) == Ok(fault));
    assert!(rt; sheet == I2C_REFUSES);
    Ok(())
}

#[test]
fn a_what_if_tests_the_device_first(rt: HostRuntime) -> Result<(), Fail> {
    let mut sheet = I2C_REFUSES;
    let fault = ProgramFault::NoDevice { device: 3 };
    let answer = what_if(rt.alloc(), three()?, &mut sheet, 3, 0, 7);
    assert!(rt; answer == Err(RunFault::Program { fault }));
    let answer = what_if(rt.alloc(), three()?, &mut sheet, 2, 0, 7);
    let fault = ProgramFault::NoLevel;
    assert!(rt; answer == Err(RunFault::Program { fault }));
    assert!(rt; sheet == I2C_REFUSES);
    Ok(())
}

#[test]
fn lines_leave_what_stands_behind_them(rt: HostRuntime) -> Result<(), Fail> {
    let report = report(rt.alloc())?;
    let mut out = [b'~'; 32];
    assert!(rt; report.entry_line(4, &mut out) == Ok(16));
    assert!(rt; out == *b"i2c suspend -110~~~~~~~~~~~~~~~~");
    assert!(rt; report.outcome_line(&mut out) == Ok(25));
    assert!(rt; out == *b"= fault 110 i2c suspend 4~~~~~~~");
    Ok(())
}

#[test]
fn a_line_tests_its_buffer_first(rt: HostRuntime) -> Result<(), Fail> {
    let report = report(rt.alloc())?;
    let mut out = [b'~'; 32];
    let (fault, calls) = (EngineFault::NoEntry, 12);
    assert!(rt; report.entry_line(9, &mut out[1..]) == Err(ProgramFault::Buffer));
    assert!(rt; report.entry_line(9, &mut out) == Err(ProgramFault::Engine { fault, calls }));
    assert!(rt; out == [b'~'; 32]);
    let refusal = Refusal {
        layer: Layer::File,
        number: 7,
        place: 0,
    };
    assert!(rt; refusal_line(refusal, &mut out) == Ok(7));
    assert!(rt; out == *b"! 3 7 0~~~~~~~~~~~~~~~~~~~~~~~~~");
    Ok(())
}
