// A part of a book, itself a book.
ghost use Rattle.std.specs.Prelude.{◌≡◌, ◌+◌, ◌-◌, ◌≤◌, min, length};
ghost use Rattle.book.specs.Books.{Writes};
ghost use Rattle.book.specs.Chapters.{part, lines_of, WrittenBelow, IsPart, FindsBelow};

use crate::book::Book;
use crate::refusal::BookRefusal;

// At most `count` lines of the book below, from its line `first` on.
#[derive(Drop)]
pub struct Chapter<B> {
    below: B,
    first: usize,
    count: usize,
}

// The line below on which some lines begin, and how many they are.
#[derive(Clone, Copy)]
struct Extent {
    start: usize,
    size: usize,
}

// Where at most `count` lines lie among `size` of them, from line `first` on.
fn clip(first: usize, count: usize, size: usize) -> Extent
    ensures start { result.start ≡ min first size }
    ensures size { result.size ≡ min count (size - min first size) }
{
    let start = first.min(size);
    Extent {
        start,
        size: count.min(size - start),
    }
}

impl<B: Book> Chapter<B> {
    pub fn new(below: B, first: usize, count: usize) -> Chapter<B>
        ensures { result ≡ record { below = below; first = first; count = count } }
    {
        Chapter {
            below,
            first,
            count,
        }
    }

    // The book below, whole.
    pub fn into_below(self) -> B
        ensures { result ≡ self.below }
    {
        let Chapter { below, .. } = self;
        below
    }

    // A chapter of this chapter, as a chapter of the book below.
    pub fn narrow(self, first: usize, count: usize) -> Chapter<B>
        ensures below { result.below ≡ self.below }
        ensures lines { lines_of B.lines result ≡ part first count (lines_of B.lines self) }
    {
        let inner = self.part_extent(first, count);
        Chapter {
            below: self.into_below(),
            first: inner.start,
            count: inner.size,
        }
    }

    // Where the chapter lies in the book below.
    fn extent(&self) -> Extent
        ensures start { result.start ≡ min self.now.first (length (B.lines self.now.below)) }
        ensures size { result.size ≡ length (lines_of B.lines self.now) }
        ensures bound { result.start + result.size ≤ 1024 }
        ensures part { IsPart self.now.first self.now.count (B.lines self.now.below) (lines_of B.lines self.now) }
    {
        clip(self.first, self.count, self.below.size())
    }

    // Where a part of the chapter lies in the book below.
    fn part_extent(&self, first: usize, count: usize) -> Extent
        ensures { part result.start result.size (B.lines self.now.below) ≡ part first count (lines_of B.lines self.now) }
    {
        let outer = self.extent();
        let inner = clip(first, count, outer.size);
        Extent {
            start: outer.start + inner.start,
            size: inner.size,
        }
    }

    // The line below that a line of the chapter is.
    fn line_below(&self, line: usize) -> Result<usize, BookRefusal>
        ensures { FindsBelow self.now.first self.now.count (B.lines self.now.below) line result }
    {
        let Extent { start, size } = self.extent();
        if line < size {
            Ok(start + line)
        } else {
            Err(BookRefusal::NoLine)
        }
    }
}

impl<B: Book> Book for Chapter<B> {
    type Value = B::Value;

    ghost lines = { lines_of B.Book.lines };

    fn size(&self) -> usize
        ensures value { result ≡ length (lines_of B.Book.lines self.now) }
        ensures bound { result ≤ 1024 }
        ensures part { IsPart self.now.first self.now.count (B.Book.lines self.now.below) (lines_of B.Book.lines self.now) }
    {
        self.extent().size
    }

    fn read(&self, line: usize) -> Result<B::Value, BookRefusal> {
        let below = self.line_below(line)?;
        self.below.read(below)
    }

    fn write(&mut self, line: usize, value: B::Value) -> Result<(), BookRefusal>
        ensures lines { Writes (lines_of B.Book.lines self.old) line value (lines_of B.Book.lines self.new) result }
        ensures below { WrittenBelow self.old.first (B.Book.lines self.old.below) line value (B.Book.lines self.new.below) result }
        ensures extent { (self.new.first ≡ self.old.first) × (self.new.count ≡ self.old.count) }
    {
        let below = self.line_below(line)?;
        self.below.write(below, value)
    }
}
