// Lines of a list and words of a line, one by one.
ghost use Rattle.std.specs.Prelude.{◌≡◌, ◌^◌, ◌<◌, ◌≤◌, ◌∷◌, length};
ghost use Rattle.script.specs.Readers.{text, lines_left, words_left, Past, NextLine, NextWord};

use super::Reader;
use crate::cut::first_part;
use crate::word::{Word, WordKind};

impl<'a> Reader<'a> {
    // A reader of all the bytes, from the first on.
    pub fn new(bytes: &'a [u8]) -> Reader<'a>
        ensures place { result.place ≡ 0 }
        ensures text { text result ≡ bytes.now }
    {
        Reader { bytes, place: 0 }
    }

    // The part up to the next separator; the reader moves past both.
    #[tactic(auto, using(crate::proofs::Parts::next_line, crate::proofs::Parts::next_word))]
    fn part(&mut self, separator: u8) -> &'a [u8]
        requires { self.old.place ≤ length (text self.old) }
        ensures past { Past self.old (length result.now) self.new }
        ensures bound { self.new.place < 2 ^ 64 }
        ensures line { separator ≡ 10 → self.old.place < length (text self.old) → lines_left self.old ≡ result.now ∷ lines_left self.new }
        ensures word { separator ≡ 32 → words_left self.old ≡ result.now ∷ words_left self.new }
    {
        let (part, _) = first_part(&self.bytes[self.place..], separator);
        self.place += part.len() + 1;
        part
    }

    // The next line, without its newline.
    #[tactic(auto, using(crate::proofs::Parts::no_line))]
    pub fn line(&mut self) -> Option<&'a [u8]>
        ensures next { NextLine self.old self.new result }
        ensures bound { self.new.place < 2 ^ 64 }
    {
        if self.place >= self.bytes.len() {
            return None;
        }
        Some(self.part(b'\n'))
    }

    // The next word of a line, by its kind and with its place.
    #[tactic(auto, using(crate::proofs::Parts::no_word))]
    #[inline]
    pub fn word(&mut self) -> Option<Word<'a>>
        ensures { NextWord self.old self.new result }
    {
        let place = self.place;
        if place > self.bytes.len() {
            return None;
        }
        let bytes = self.part(b' ');
        let kind = WordKind::from(bytes);
        Some(Word { bytes, place, kind })
    }
}
