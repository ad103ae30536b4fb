// Pieces of a file of answers.
use std::io::{self, ErrorKind, Read};

// Whether the file went on for all of the buffer.
// Kept: the program sheet has the same function; a library that the two would share for these few lines is no plainer.
pub fn filled(cases: &mut impl Read, buf: &mut [u8]) -> io::Result<bool> {
    match cases.read_exact(buf) {
        Ok(()) => Ok(true),
        Err(e) if e.kind() == ErrorKind::UnexpectedEof => Ok(false),
        Err(e) => Err(e),
    }
}
