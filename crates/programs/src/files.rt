// The files that the programs read.
use std::io::ErrorKind;
use std::{fs, io};

// The bytes of the file `book` in the working folder; a missing file counts as empty.
pub fn book_file(rt: &HostRuntime) -> io::Result<Vec<u8>> {
    fs::read(rt, "book").or_else(|error| match error.kind() {
        ErrorKind::NotFound => Ok(Vec::new(rt.alloc())),
        _ => Err(error),
    })
}
