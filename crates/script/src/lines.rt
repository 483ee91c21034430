// The lines of a list, one by one, each without its newline.
ghost use Rattle.std.specs.Prelude.{◌≡◌};
ghost use Rattle.std.specs.Iterator.{YieldsFirstRef, item_count};
ghost use Rattle.script.specs.Cuts.{lines_of};
ghost use Rattle.script.specs.Parts.{lines_left};
ghost use Rattle.script.specs.Readers.{text};

use crate::reader::Reader;

// The lines that a reader is still to read. Whoever needs a line's place too calls `Reader::line`.
// Kept the law of std's iterators alone: with the place in it, a `fold` over lines was not proved.
#[derive(Drop)]
pub struct Lines<'a> {
    pub reader: Reader<'a>,
}

impl<'a> Lines<'a> {
    // The lines of these bytes, from the first on.
    pub fn new(bytes: &'a [u8]) -> Lines<'a>
        ensures place { result.reader.place ≡ 0 }
        ensures text { text result.reader ≡ bytes.now }
        ensures lines { lines_left result ≡ lines_of bytes.now }
    {
        let reader = Reader::new(bytes);
        Lines { reader }
    }
}

impl<'a> Iterator for Lines<'a> {
    type Item = &'a [u8];

    ghost next_gives = { YieldsFirstRef lines_left };

    ghost remaining = { item_count lines_left };

    fn next(&mut self) -> Option<&'a [u8]> {
        self.reader.line()
    }
}
