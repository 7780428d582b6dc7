// What a free bank chooses at a change.
ghost use Rattle.std.specs.Prelude.{◌≡◌, ℕ, ◌<◌, ◌≤◌, ◌^◌, All, slice_index_or};
ghost use Rattle.bank.specs.Meaning.{greatest_errno};

#[derive(Clone, Copy)]
pub struct Choice {
    // The word that a lowering adds.
    pub word: u32,
    // What hinders each device from then on.
    pub hindrances: [u8; 64],
    ghost fits: { word < 2 ^ 32 },
    ghost errnos: { All (λ e. e ≤ greatest_errno) hindrances },
}

// What is chosen where no choice is left.
pub const LAST: Choice = Choice {
    word: 0,
    hindrances: [0; 64],
};

// The byte at a place, 0 where there is none.
fn byte_at(bytes: &[u8], place: usize) -> u8
    ensures byte { result ≡ slice_index_or bytes.now place 0 }
    ensures fits { result ≤ greatest_errno }
{
    bytes.get(place).copied().unwrap_or(0)
}

// The errnos of 64 devices; 0 where no byte is given.
fn errnos(bytes: &[u8]) -> [u8; 64]
    ensures fit { All (λ e. e ≤ greatest_errno) result }
    ensures bytes { (k : ℕ) → k < 64 → slice_index_or result k 0 ≡ slice_index_or bytes.now k 0 }
{
    let mut errnos = [0; 64];
    for place in 0..64 {
        errnos[place] = byte_at(bytes, place);
    }
    errnos
}

impl Choice {
    // This word, and a byte for what hinders each device.
    pub fn new(word: u32, hindrances: &[u8]) -> Choice
        ensures word { result.word ≡ word }
        ensures hindrances { (k : ℕ) → k < 64 → slice_index_or result.hindrances k 0 ≡ slice_index_or hindrances.now k 0 }
    {
        Choice {
            word,
            hindrances: errnos(hindrances),
        }
    }
}
