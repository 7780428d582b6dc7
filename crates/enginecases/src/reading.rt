// What is read of a case behind its bank.
use anyhow::anyhow;
use casebytes::bytes::Bytes;
use history::call::Call;
use order::ordering::Order;
use order::superiors::Superiors;
use std::alloc::Global;

// A count of devices, and pairs of a superior and a dependent.
pub fn read_order(bytes: &mut Bytes) -> anyhow::Result<Order> {
    let count = bytes.byte()?;
    let mut superiors = Superiors::new(count).ok_or_else(|| anyhow!(
        "no board has so many devices"
    ))?;
    for _ in 0..bytes.number()? {
        let superior = bytes.byte()?;
        let dependent = bytes.byte()?;
        superiors
            .add(superior, dependent)
            .map_err(|_| anyhow!("no device has this number"))?;
    }
    superiors
        .order()
        .map_err(|_| anyhow!("the superiors run in a circle"))
}

// A call, of which the letter tells the kind.
fn read_call(bytes: &mut Bytes) -> anyhow::Result<Call> {
    let letter = bytes.byte()?;
    let device = bytes.byte()?;
    let word = bytes.word()?;
    match letter {
        b'o' => Ok(Call::Open),
        b's' => Ok(Call::Step),
        b'a' => Ok(Call::Alarm { device }),
        b'c' => Ok(Call::Close),
        b'p' => Ok(Call::Put { device, word }),
        b'l' => Ok(Call::Look { device }),
        _ => Err(anyhow!("no call has this letter")),
    }
}

// A count, and so many calls.
pub fn read_calls(heap: Global, bytes: &mut Bytes) -> anyhow::Result<Vec<Call>> {
    let mut calls = Vec::new(heap);
    for _ in 0..bytes.number()? {
        calls.push(read_call(bytes)?)?;
    }
    Ok(calls)
}
