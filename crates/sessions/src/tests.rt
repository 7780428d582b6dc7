// Calls like those of the worked cases, made of running banks.
use crate::{board_answers, register_answers};
use bank::call::{Call, Reply};
use bank::fault::BankFault;
use std::test::Fail;

fn seen(level: u8, word: u32, hindrance: u8) -> Result<Reply, BankFault> {
    Ok(Reply::Seen {
        level,
        word,
        hindrance,
    })
}

#[test]
fn clk_goes_down(rt: HostRuntime) -> Result<(), Fail> {
    let look = Call::Look { device: 0 };
    let lower = Call::Lower { device: 0 };
    let calls = [look, lower, look, lower, look, lower, look, lower, look];
    let answers = register_answers(rt.alloc(), &[0x21a1_b2c3], &calls)
        .ok()
        .ok_or("no answers")?;
    let taken = Ok(Reply::Code { code: 0 });
    let expected = [
        seen(0, 0x21a1_b2c3, 0),
        taken,
        seen(1, 0x21a1_b2c3, 0),
        taken,
        seen(2, 0x21a1_0000, 0),
        taken,
        seen(3, 0x2100_0000, 0),
        taken,
        seen(4, 0, 0),
    ];
    assert!(rt; answers.as_slice() == expected.as_slice());
    Ok(())
}

#[test]
fn the_highest_bit_hinders(rt: HostRuntime) -> Result<(), Fail> {
    let lower = Call::Lower { device: 0 };
    let look = Call::Look { device: 0 };
    let calls = [lower, lower, look];
    let answers = register_answers(rt.alloc(), &[0x8000_0000], &calls)
        .ok()
        .ok_or("no answers")?;
    let expected = [
        Ok(Reply::Code { code: 0 }),
        Ok(Reply::Code { code: -16 }),
        seen(1, 0x8000_0000, 16),
    ];
    assert!(rt; answers.as_slice() == expected.as_slice());
    Ok(())
}

#[test]
fn a_cell_hinders_in_a_whole_board(rt: HostRuntime) -> Result<(), Fail> {
    let mut cells = Vec::new(rt.alloc());
    cells.extend_from_slice(&[0, 0, 0, 0, 0, 110])?;
    let lower = Call::Lower { device: 1 };
    let look = Call::Look { device: 1 };
    let calls = [Call::Count, lower, look, lower, look];
    let answers = board_answers(rt.alloc(), &[0x21a1_b2c3], &[0, 0x500], &[7], cells, &calls)
        .ok()
        .ok_or("no answers")?;
    let expected = [
        Ok(Reply::Counted { count: 4 }),
        Ok(Reply::Code { code: 0 }),
        seen(1, 0, 110),
        Ok(Reply::Code { code: -110 }),
        seen(1, 0, 110),
    ];
    assert!(rt; answers.as_slice() == expected.as_slice());
    Ok(())
}
