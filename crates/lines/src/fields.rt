// The fields of a line, each written into its own part of the buffer.
ghost use Rattle.std.specs.Prelude.{◌≡◌, ◌+◌, ◌≤◌, length, decimal};
ghost use Rattle.std.specs.Fmt.{signed_decimal};
ghost use Rattle.lines.specs.Fields.{shown, joined, over, put_at};

#[derive(Clone, Copy)]
pub(crate) enum Field<'a> {
    Text { text: &'a [u8] },
    // In base ten.
    Number { value: u32 },
    // In base ten, with its sign where it is below zero.
    Signed { value: i16 },
}

fn write_text(part: &mut [u8], text: &[u8]) -> usize
    requires { length text.now ≤ length part.old }
    ensures count { result ≡ length text.now }
    ensures bytes { part.new ≡ over text.now part.old }
{
    part[..text.len()].copy_from_slice(text);
    text.len()
}

#[tactic(auto, using(crate::proofs::Places::one_digit, crate::proofs::Places::digit_written, crate::proofs::Places::more_digits, crate::proofs::Places::digits_written))]
fn write_number(part: &mut [u8], value: u32) -> usize
    requires { length (decimal value) ≤ length part.old }
    ensures count { result ≡ length (decimal value) }
    ensures bytes { part.new ≡ over (decimal value) part.old }
{
    if value < 10 {
        part[0] = b'0' + value as u8;
        return 1;
    }
    let end = write_number(part, value / 10);
    part[end] = b'0' + (value % 10) as u8;
    end + 1
}

fn write_signed(part: &mut [u8], value: i16) -> usize
    requires { length (signed_decimal value) ≤ length part.old }
    ensures count { result ≡ length (signed_decimal value) }
    ensures bytes { part.new ≡ over (signed_decimal value) part.old }
{
    let size = u32::from(value.unsigned_abs());
    if value >= 0 {
        return write_number(part, size);
    }
    part[0] = b'-';
    1 + write_number(&mut part[1..], size)
}

impl Field<'_> {
    // Writes the field to the front of its part, and answers its length.
    fn write(self, part: &mut [u8]) -> usize
        requires { length (shown self) ≤ length part.old }
        ensures count { result ≡ length (shown self.entry) }
        ensures bytes { part.new ≡ over (shown self.entry) part.old }
    {
        match self {
            Field::Text { text } => write_text(part, text),
            Field::Number { value } => write_number(part, value),
            Field::Signed { value } => write_signed(part, value),
        }
    }

    // Writes the field into the part of the line that begins at `at`, and answers where it ends.
    #[tactic(auto, unfolding(crate::specs::Fields::put_at))]
    fn put(self, line: &mut [u8], at: usize) -> usize
        requires { at + length (shown self) ≤ length line.old }
        ensures count { result ≡ at + length (shown self.entry) }
        ensures bytes { line.new ≡ put_at (shown self.entry) at line.old }
    {
        at + self.write(&mut line[at..])
    }
}

// Writes fields to the front of a line, with one space between, and answers where the last one ends.
#[tactic(auto, using(crate::proofs::Places::put_first, crate::proofs::Places::put_after, crate::proofs::Places::joined_first, crate::proofs::Places::first_room, crate::proofs::Places::field_room, crate::proofs::Places::space_room, crate::proofs::Places::joined_more))]
pub(crate) fn write_fields(line: &mut [u8], first: Field<'_>, rest: &[Field<'_>]) -> usize
    requires { length (joined first rest.now) ≤ length line.old }
    ensures count { result ≡ length (joined first.entry rest.now) }
    ensures bytes { line.new ≡ over (joined first.entry rest.now) line.old }
{
    let mut end = first.put(line, 0);
    for field in rest {
        let space = Field::Text { text: b" " };
        end = space.put(line, end);
        end = field.put(line, end);
    }
    end
}
