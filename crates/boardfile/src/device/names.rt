ghost use Rattle.std.specs.Prelude.{◌≡◌, ◌≤◌, ◌⊎◌, length, All, Decides};
ghost use Rattle.boardfile.specs.Rules.{Letter, Digit, Named, name_size};
ghost use Rattle.boardfile.specs.Contents.{text, Parsed};

use crate::device::{Name, NotAName};

// How many bytes stand before the first zero byte, or in all.
fn name_size(field: &[u8]) -> usize
    ensures size { result ≡ name_size field.now }
    ensures bound { result ≤ length field.now }
{
    field.iter().take_while(|b| **b != 0).count()
}

// Whether all of these bytes are letters a to z and digits.
fn is_plain(name: &[u8]) -> bool
    ensures { Decides result (All (λ b. Letter b ⊎ Digit b) name.now) }
{
    name.iter()
        .all(|b| b.is_ascii_lowercase() || b.is_ascii_digit())
}

// Whether all of these bytes are zero.
fn is_padding(bytes: &[u8]) -> bool
    ensures { Decides result (All (λ b. b ≡ 0) bytes.now) }
{
    bytes.iter().all(|b| *b == 0)
}

// Whether this is a name, padded with zero bytes.
fn is_name(field: &[u8]) -> bool
    ensures { Decides result (Named field.now) }
{
    let (name, padding) = field.split_at(name_size(field));
    field.first().is_some_and(|b| b.is_ascii_lowercase()) && is_plain(name) && is_padding(padding)
}

// The name in 8 bytes.
impl TryFrom<&[u8]> for Name {
    type Error = NotAName;

    ghost try_from_gives = { λ field r. Parsed field.now r };

    fn try_from(field: &[u8]) -> Result<Name, NotAName> {
        match field.as_array() {
            Some(padded) if is_name(field) => Ok(Name { padded: *padded }),
            _ => Err(NotAName),
        }
    }
}

impl Name {
    // The name without its padding.
    pub fn as_bytes(&self) -> &[u8]
        ensures text { result.now ≡ text self.now }
        ensures most { length result.now ≤ 8 }
    {
        &self.padded[..name_size(&self.padded)]
    }
}
