// The letters that begin a line, one for each command.
ghost use Rattle.std.specs.Prelude.{◌≡◌, [], ◌∷◌, Some};
ghost use Rattle.script.specs.Letters.{letter_byte, numbers_after, IsLetter};

use crate::fault::LineCause;
use std::fmt;

#[derive(Clone, Copy, Debug, PartialEq, Eq)]
pub enum Letter {
    Start,
    Step,
    Withdraw,
    Look,
}

// The letter that a word is, which is then all of the word.
// Kept beside the four letters of `fmt`: a table would have to be looked through, with a proof that it finds; two matches are plainer.
impl TryFrom<&[u8]> for Letter {
    type Error = LineCause;

    ghost try_from_gives = { λ word answer. IsLetter word.now answer };

    fn try_from(word: &[u8]) -> Result<Letter, LineCause> {
        match word {
            [b'S'] => Ok(Letter::Start),
            [b'T'] => Ok(Letter::Step),
            [b'W'] => Ok(Letter::Withdraw),
            [b'L'] => Ok(Letter::Look),
            _ => Err(LineCause::UnknownLetter),
        }
    }
}

impl Letter {
    // How many numbers follow the letter.
    pub(crate) fn number_count(self) -> usize
        ensures { result ≡ numbers_after self }
    {
        match self {
            Letter::Start => 6,
            Letter::Step | Letter::Withdraw | Letter::Look => 1,
        }
    }
}

impl fmt::Display for Letter {
    ghost output = { λ l. Some (letter_byte l ∷ []) };

    fn fmt<W: fmt::Write>(&self, f: &mut fmt::Formatter<W>) -> fmt::Result {
        match *self {
            Letter::Start => write!(f, "S"),
            Letter::Step => write!(f, "T"),
            Letter::Withdraw => write!(f, "W"),
            Letter::Look => write!(f, "L"),
        }
    }
}
