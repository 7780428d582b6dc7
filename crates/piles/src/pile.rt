// The words of one device.
mod words;

ghost use Rattle.std.specs.Prelude.{◌≡◌, ◌<◌, ◌≤◌, ◌^◌, length, All};

// One to five words, the oldest first. Past the level the table has whatever was there before.
#[derive(Clone, Copy)]
pub struct Pile {
    words: [u32; 5],
    level: u8,
    ghost wide: { length words ≡ 5 },
    ghost deep: { level ≤ 4 },
    ghost fit: { All (λ w. w < 2 ^ 32) words },
}
