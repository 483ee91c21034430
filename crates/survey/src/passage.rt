// Whether a leg can be walked.
ghost use Rattle.std.specs.Prelude.{◌≡◌};
ghost use Rattle.survey.specs.Passages.{passage_number, ReadsPassage};

use crate::fault::ValueFault;

#[derive(Clone, Copy, Debug, PartialEq, Eq)]
pub enum Passage {
    Closed,
    Open,
}

// The number by which rows, files and listings have it.
impl From<Passage> for u8 {
    ghost from_gives = { λ passage number. number ≡ passage_number passage };

    fn from(passage: Passage) -> u8 {
        match passage {
            Passage::Closed => 0,
            Passage::Open => 1,
        }
    }
}

impl TryFrom<u32> for Passage {
    type Error = ValueFault;

    ghost try_from_gives = { ReadsPassage };

    fn try_from(number: u32) -> Result<Passage, ValueFault> {
        match number {
            0 => Ok(Passage::Closed),
            1 => Ok(Passage::Open),
            _ => Err(ValueFault::Passage),
        }
    }
}
