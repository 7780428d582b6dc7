// Reading a file that is to be a board file.
ghost use Rattle.std.specs.Prelude.{◌≡◌, ◌+◌, take, IfOk, IfSome};
ghost use Rattle.boardfile.specs.Limits.{most_bytes};
ghost use Rattle.board.specs.Files.{ReadOf};

use frame::limits::MOST_BYTES;
use std::alloc::Global;
use std::io::{self, Read};

// How many bytes show that a file is too long.
fn bytes_enough() -> u64
    ensures { result ≡ most_bytes + 1 }
{
    MOST_BYTES as u64 + 1
}

// So many bytes of a reader, or all that it has.
fn read_up_to<R: Read + Drop>(heap: Global, reader: R, most: u64) -> io::Result<Vec<u8>>
    ensures { IfOk result (λ bytes. IfSome (R.remaining reader) (λ file. bytes.items ≡ take most file)) }
{
    let mut bytes = Vec::new(heap);
    reader.take(most).read_to_end(&mut bytes)?;
    Ok(bytes)
}

// The bytes that a reader has; of more than a board file may have, just enough to show it. That is enough for a fault sheet too,
// which is shorter.
pub fn read_file<R: Read + Drop>(heap: Global, reader: R) -> io::Result<Vec<u8>>
    ensures { IfOk result (λ bytes. IfSome (R.remaining reader) (λ file. ReadOf file bytes.items)) }
{
    read_up_to(heap, reader, bytes_enough())
}
