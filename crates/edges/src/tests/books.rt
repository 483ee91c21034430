// The sizes of books and chapters, what a write leaves, the lines in order, and a book of another make.
ghost use Rattle.std.specs.Prelude.{◌≡◌};

use book::book::Book;
use book::chapter::Chapter;
use book::flat::FlatBook;
use book::refusal::BookRefusal;
use book::rows::Rows;

// The size of a flat book over so many places, and what reading and writing past it answers.
fn flat_book(places: usize) -> (usize, Result<u32, BookRefusal>, Result<(), BookRefusal>) {
    let mut memory = [7; 1030];
    let mut book = FlatBook::new(&mut memory[0..places.min(1030)]);
    let size = book.size();
    (size, book.read(size), book.write(size, 8))
}

#[test]
fn a_flat_book_has_1024_lines_at_most(rt: HostRuntime) {
    for (places, lines) in [
        (0, 0),
        (1, 1),
        (64, 64),
        (1024, 1024),
        (1025, 1024),
        (1030, 1024),
    ] {
        let (size, read, written) = flat_book(places);
        assert_eq!(rt; size, lines);
        assert_eq!(rt; read, Err(BookRefusal::NoLine));
        assert_eq!(rt; written, Err(BookRefusal::NoLine));
    }
}

fn chapter_size(lines: usize, first: usize, count: usize) -> usize {
    let mut memory = [0u32; 100];
    Chapter::new(FlatBook::new(&mut memory[0..lines.min(100)]), first, count).size()
}

#[test]
fn a_chapter_has_what_is_there(rt: HostRuntime) {
    let cases = [
        (100, 70, 64, 30),
        (100, 0, 64, 64),
        (100, 36, 64, 64),
        (100, 37, 64, 63),
        (100, 99, 1, 1),
        (100, 100, 5, 0),
        (100, 200, 5, 0),
        (100, 5, 0, 0),
        (0, 0, 64, 0),
        (100, usize::MAX, usize::MAX, 0),
        (100, 0, usize::MAX, 100),
    ];
    for (lines, first, count, size) in cases {
        assert_eq!(rt; chapter_size(lines, first, count), size);
    }
}

#[test]
fn a_chapter_of_a_chapter_writes_one_line_below(rt: HostRuntime) {
    let mut memory = [0u32, 10, 20, 30, 40, 50, 60, 70, 80, 90];
    // lines 4 and 5 of lines 2 to 8 are lines 6 and 7
    let mut inner = Chapter::new(Chapter::new(FlatBook::new(&mut memory), 2, 7), 4, 2);
    assert_eq!(rt; inner.size(), 2);
    assert_eq!(rt; inner.read(1), Ok(70));
    assert_eq!(rt; inner.write(0, 61), Ok(()));
    assert_eq!(rt; inner.write(2, 81), Err(BookRefusal::NoLine));
    let mut narrowed = inner.into_below().narrow(4, 2);
    assert_eq!(rt; narrowed.size(), 2);
    assert_eq!(rt; narrowed.read(0), Ok(61));
    assert_eq!(rt; narrowed.write(1, 71), Ok(()));
    let book = narrowed.into_below();
    for (line, want) in [0u32, 10, 20, 30, 40, 50, 61, 71, 80, 90]
        .iter()
        .enumerate()
    {
        assert_eq!(rt; book.read(line), Ok(*want));
    }
}

#[test]
fn the_lines_of_a_chapter_come_in_order(rt: HostRuntime) {
    let mut memory = [0u32, 10, 20, 30, 40];
    let chapter = Chapter::new(FlatBook::new(&mut memory), 1, 3);
    let mut rows = Rows::new(&chapter);
    for want in [Some(10), Some(20), Some(30), None, None] {
        assert_eq!(rt; rows.next(), want);
    }
}

// A book that owns its memory; its make says of its size only what `size` promises.
#[derive(Clone, Copy)]
struct OwnBook {
    memory: [u32; 4],
}

impl Book for OwnBook {
    type Value = u32;

    ghost lines = { λ b. b.memory };

    fn size(&self) -> usize {
        self.memory.len()
    }

    fn read(&self, line: usize) -> Result<u32, BookRefusal> {
        if line >= self.memory.len() {
            return Err(BookRefusal::NoLine);
        }
        Ok(self.memory[line])
    }

    fn write(&mut self, line: usize, value: u32) -> Result<(), BookRefusal> {
        if line >= self.memory.len() {
            return Err(BookRefusal::NoLine);
        }
        self.memory[line] = value;
        Ok(())
    }
}

#[test]
fn a_book_of_another_make_is_a_book(rt: HostRuntime) {
    let mut chapter = Chapter::new(
        OwnBook {
            memory: [0, 10, 20, 30],
        },
        1,
        9,
    );
    assert_eq!(rt; chapter.size(), 3);
    assert_eq!(rt; chapter.write(2, 31), Ok(()));
    assert_eq!(rt; chapter.write(3, 41), Err(BookRefusal::NoLine));
    let book = chapter.into_below();
    let mut rows = Rows::new(&book);
    for want in [Some(0), Some(10), Some(20), Some(31), None] {
        assert_eq!(rt; rows.next(), want);
    }
}
