// The words of a line, by their kind.
ghost use Rattle.script.specs.Words.{SaysWhatItIs};

use crate::letter::Letter;
use crate::number::number;

// What a word is. A number is weighed once.
#[derive(Clone, Copy, Debug, PartialEq, Eq)]
pub enum WordKind {
    Letter(Letter),
    Number(u32),
    Other,
}

// The kind of a word of these bytes.
impl From<&[u8]> for WordKind {
    ghost from_gives = { λ bytes kind. SaysWhatItIs bytes.now kind };

    fn from(bytes: &[u8]) -> WordKind {
        if let Ok(letter) = Letter::try_from(bytes) {
            return WordKind::Letter(letter);
        }
        number(bytes).map_or(WordKind::Other, WordKind::Number)
    }
}

// A part of a line, with its place in the line and what it is.
#[derive(Clone, Copy)]
pub struct Word<'a> {
    pub bytes: &'a [u8],
    pub place: usize,
    pub kind: WordKind,
}
