// The lines of a book, one after another.
ghost use Rattle.std.specs.Prelude.{◌≡◌, ◌≤◌, length};

use crate::book::Book;
use std::ops::Range;

// Yields the values of the lines whose numbers are left.
#[derive(Drop)]
pub struct Rows<'a, B: Book> {
    book: &'a B,
    numbers: Range<usize>,
    ghost to_the_end: { numbers.end ≡ length (B.Book.lines book.now) },
    ghost few: { numbers.end ≤ 1024 },
}

impl<'a, B: Book> Rows<'a, B> {
    ghost use Rattle.book.specs.Rows.{rows_left};

    // The values of all lines.
    pub fn new(book: &'a B) -> Rows<'a, B>
        ensures lines { rows_left result ≡ B.lines book.now }
        ensures few { length (B.lines book.now) ≤ 1024 }
    {
        Rows {
            book,
            numbers: 0..book.size(),
        }
    }
}

impl<'a, B: Book> Iterator for Rows<'a, B> {
    ghost use Rattle.std.specs.Iterator.{YieldsFirst, item_count};
    ghost use Rattle.book.specs.Rows.{rows_left};

    type Item = B::Value;

    ghost next_gives = { YieldsFirst (rows_left) };

    ghost remaining = { item_count (rows_left) };

    fn next(&mut self) -> Option<B::Value> {
        let line = self.numbers.next()?;
        self.book.read(line).ok()
    }
}
