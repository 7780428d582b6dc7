ghost use Rattle.std.specs.Prelude.{Some, encode_utf8_all};
ghost use Rattle.boardfile.specs.Contents.{text};

use crate::device::Name;
use std::fmt;

// The name without its padding, each byte as the character that it numbers. The names of a board are ASCII, so their bytes
// are printed as they stand.
impl fmt::Display for Name {
    ghost output = { λ name. Some (encode_utf8_all (text name)) };

    fn fmt<W: fmt::Write>(&self, f: &mut fmt::Formatter<W>) -> fmt::Result {
        for byte in self.as_bytes() {
            f.write_char(char::from(*byte))?;
        }
        Ok(())
    }
}
