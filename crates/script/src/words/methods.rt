// Going through a line.
ghost use Rattle.std.specs.Prelude.{◌≡◌};
ghost use Rattle.std.specs.Iterator.{item_count};
ghost use Rattle.script.specs.Cuts.{words};
ghost use Rattle.script.specs.Parts.{words_left, NextWord};
ghost use Rattle.script.specs.Readers.{text};

use super::Words;
use crate::reader::Reader;
use crate::word::Word;

impl<'a> Words<'a> {
    // The words of a line, from the first on.
    #[tactic(auto, using(crate::proofs::Parts::words_from_start))]
    pub fn new(line: &'a [u8]) -> Words<'a>
        ensures place { result.reader.place ≡ 0 }
        ensures text { text result.reader ≡ line.now }
        ensures words { words_left result ≡ words line.now }
    {
        let reader = Reader::new(line);
        Words { reader }
    }
}

impl<'a> Iterator for Words<'a> {
    type Item = Word<'a>;

    ghost next_gives = { λ s r t. NextWord s t r };

    ghost remaining = { item_count words_left };

    // The next word, by its kind and with its place. Kept inlined, with the reader's `word`: else each word is handed over in memory, and a list of short orders took 1.3 times as long.
    #[inline]
    fn next(&mut self) -> Option<Word<'a>> {
        self.reader.word()
    }
}
