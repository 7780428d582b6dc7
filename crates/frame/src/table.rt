// Tables of records.
ghost use Rattle.std.specs.Prelude.{◌≡◌, ◌+◌, ◌*◌, ◌<◌, ◌≤◌, length};
ghost use Rattle.frame.specs.Frames.{TableOf};

// A table of a board file: where its first record begins, and its records, of SIZE bytes each.
#[derive(Clone, Copy)]
pub struct Table<'a, const SIZE: usize> {
    start: u16,
    records: &'a [[u8; SIZE]],
    ghost small: { SIZE ≤ 65535 },
}

impl<'a, const SIZE: usize> Table<'a, SIZE> {
    // The table of so many records from here.
    pub(crate) fn cut(bytes: &'a [u8], start: u16, count: u16) -> Table<'a, SIZE>
        requires size { (0 < SIZE) × (SIZE ≤ 65535) }
        requires inside { start + SIZE * count ≤ length bytes.now }
        ensures { TableOf SIZE bytes.now start count result.start result.records.now }
    {
        let first = usize::from(start);
        let (records, _) = bytes[first..first + SIZE * usize::from(count)].as_chunks();
        Table { start, records }
    }

    // The records, the first first.
    pub fn records(&self) -> &'a [[u8; SIZE]]
        ensures { result.now ≡ self.now.records.now }
    {
        self.records
    }

    // The first byte of record `i`.
    pub fn place(&self, i: u16) -> usize
        ensures { result ≡ self.now.start + SIZE * i }
    {
        usize::from(self.start) + SIZE * usize::from(i)
    }
}
