// The words of a line, one by one.
use crate::reader::Reader;

mod methods;

// The words that a reader is still to read.
#[derive(Drop)]
pub struct Words<'a> {
    pub reader: Reader<'a>,
}
