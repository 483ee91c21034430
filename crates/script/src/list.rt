// A whole turn list.
ghost use Rattle.std.specs.Prelude.{◌≡◌};
ghost use Rattle.script.specs.Cuts.{lines_of, LinesOfBytes};
ghost use Rattle.script.specs.Lists.{Admitted};
ghost use Rattle.script.specs.Turns.{items, items_left};

use crate::fault::{ListFault, MOST_BYTES};
use crate::turns::Turns;

// The bytes of a list that is not too long.
#[derive(Clone, Copy)]
pub struct TurnList<'a> {
    bytes: &'a [u8],
}

// The list of these bytes, unless it is too long; no line is read for that.
impl<'a> TryFrom<&'a [u8]> for TurnList<'a> {
    type Error = ListFault;

    ghost try_from_gives = { λ bytes answer. Admitted bytes.now answer };

    fn try_from(bytes: &'a [u8]) -> Result<TurnList<'a>, ListFault> {
        if bytes.len() > MOST_BYTES {
            return Err(ListFault::TooLong);
        }
        Ok(TurnList { bytes })
    }
}

impl<'a> TurnList<'a> {
    // The same as `try_from`.
    pub fn new(bytes: &'a [u8]) -> Result<TurnList<'a>, ListFault>
        ensures { Admitted bytes.now result }
    {
        TurnList::try_from(bytes)
    }

    // Its turns, from the first line on, as often as they are asked for. The lines are the bytes.
    pub fn turns(self) -> Turns<'a>
        ensures items { items_left result ≡ items self.entry.bytes.now }
        ensures lines { LinesOfBytes self.entry.bytes.now (lines_of self.entry.bytes.now) }
    {
        Turns::new(self.bytes)
    }
}
