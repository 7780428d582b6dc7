// A board's devices in their order, as text.
ghost use Rattle.std.specs.Prelude.{◌≡◌, ℕ, ◌<◌, ◌++◌, IfOk, string_bytes, codes, OnOk, slice_index};
ghost use Rattle.std.specs.List.{flat_map};
ghost use Rattle.order.specs.Answers.{superiors_of};
ghost use Rattle.listing.specs.Lines.{name_of, spaced, line, lines, ByNumber};

use board::board::Board;
use std::alloc::{AllocError, Global};

// Appends ASCII text.
fn push_ascii(text: &mut String, bytes: &[u8]) -> Result<(), AllocError>
    requires { (k : ℕ) → slice_index bytes.now k < 128 }
    ensures { OnOk result (string_bytes text.new ≡ string_bytes text.old ++ bytes.now) }
{
    for b in bytes {
        text.push(char::from(*b))?;
    }
    Ok(())
}

// Appends the name of a device.
fn push_name(text: &mut String, board: &Board, device: u8) -> Result<(), AllocError>
    requires { device < board.now.order.superiors.count }
    ensures { OnOk result (string_bytes text.new ≡ string_bytes text.old ++ name_of board.now device) }
{
    let name = board.devices()[usize::from(device)].name;
    push_ascii(text, name.as_bytes())
}

// Appends a space and the name of a device.
fn push_spaced(text: &mut String, board: &Board, device: u8) -> Result<(), AllocError>
    requires { device < board.now.order.superiors.count }
    ensures { OnOk result (string_bytes text.new ≡ string_bytes text.old ++ codes " " ++ name_of board.now device) }
{
    text.push_str(" ")?;
    push_name(text, board, device)?;
    Ok(())
}

// Appends the names of a device's superiors, each after a space.
fn push_superiors(text: &mut String, board: &Board, device: u8) -> Result<(), AllocError>
    ensures { OnOk result (string_bytes text.new ≡ string_bytes text.old ++ flat_map (spaced board.now) (superiors_of board.now.order.superiors device)) }
{
    let superiors = board.superiors();
    for s in 0..superiors.count() {
        if superiors.has(s, device) {
            push_spaced(text, board, s)?;
        }
    }
    Ok(())
}

// Appends the line of a device.
fn push_line(text: &mut String, board: &Board, device: u8) -> Result<(), AllocError>
    requires { device < board.now.order.superiors.count }
    ensures { OnOk result (string_bytes text.new ≡ string_bytes text.old ++ name_of board.now device ++ flat_map (spaced board.now) (superiors_of board.now.order.superiors device) ++ codes "\n") }
{
    push_name(text, board, device)?;
    push_superiors(text, board, device)?;
    text.push_str("\n")?;
    Ok(())
}

// A line for each device in the order: its name, and the names of its superiors by number.
pub fn order_lines(heap: Global, board: &Board) -> Result<String, AllocError>
    ensures text { IfOk result (λ text. string_bytes text ≡ lines board.now) }
    ensures by_number { (d : ℕ) → ByNumber board.now d }
{
    push_lines(heap, board)
}

fn push_lines(heap: Global, board: &Board) -> Result<String, AllocError>
    ensures { IfOk result (λ text. string_bytes text ≡ lines board.now) }
{
    let mut text = String::new(heap);
    for &device in board.order().devices() {
        push_line(&mut text, board, device)?;
    }
    Ok(text)
}
