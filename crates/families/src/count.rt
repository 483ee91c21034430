// Counting rope.
mod family;

// Kind 0 adds up the metres of lines 0 to a - 1.
#[derive(Clone, Copy)]
pub struct Count;

// The line is to be read, unless it is the end; the lines before it have so many metres.
// Kept two numbers and no `Range`: a state is copied, and a range is not.
#[derive(Clone, Copy)]
pub struct Tally {
    pub line: u32,
    pub end: u32,
    pub sum: u32,
}
