// What programs ask of the system that they run on: the bytes of a file, and whether they are to tell what they do.
#![tactic(auto)]

use board::file::read_file;
use std::alloc::AllocError;
use std::env::Env;
use std::fs::File;
use std::io::ErrorKind;

// The bytes of a file; no bytes where it cannot be read. Where there is no memory for them, nothing is known of the file, and
// that is answered.
pub fn bytes_of(rt: &HostRuntime, path: &str) -> Result<Vec<u8>, AllocError> {
    match File::open(rt, path).and_then(|file| read_file(rt.alloc(), file)) {
        Ok(bytes) => Ok(bytes),
        Err(e) if e.kind() == ErrorKind::OutOfMemory => Err(AllocError),
        Err(_) => Ok(Vec::new(rt.alloc())),
    }
}

// Whether the first argument is `--help`.
pub fn asks_for_help(rt: &HostRuntime) -> bool {
    let mut argument = [0; 8];
    match rt.arg(1, &mut argument) {
        Ok(size) => &argument[..size] == b"--help".as_slice(),
        Err(_) => false,
    }
}
