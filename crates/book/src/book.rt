// What a book is.
ghost use Rattle.std.specs.Prelude.{◌≡◌, ◌≤◌, List, length};
ghost use Rattle.book.specs.Books.{Reads, Writes};

use crate::refusal::BookRefusal;

// The most lines that a book has.
pub const MOST_LINES: usize = 1024;

// A book means its list of values, one to a line, and nothing else.
pub trait Book {
    type Value: Copy;

    ghost lines: { Self → List Self.Value };

    // How many lines there are; no call changes it.
    fn size(&self) -> usize
        ensures value { result ≡ length (lines self.now) }
        ensures bound { result ≤ 1024 };

    // The value of a line.
    fn read(&self, line: usize) -> Result<Self::Value, BookRefusal>
        ensures { Reads (lines self.now) line result };

    // Gives one line a new value and leaves the others.
    fn write(&mut self, line: usize, value: Self::Value) -> Result<(), BookRefusal>
        ensures { Writes (lines self.old) line value (lines self.new) result };
}
