// Going through a turn list.
ghost use Rattle.std.specs.Prelude.{◌≡◌};
ghost use Rattle.std.specs.Iterator.{YieldsFirst, item_count};
ghost use Rattle.script.specs.Commands.{line_says};
ghost use Rattle.script.specs.Cuts.{lines_of, LinesOfBytes};
ghost use Rattle.script.specs.Turns.{numbered, items, items_left, Admitted};

use super::Turns;
use crate::command::call_in;
use crate::fault::ListFault;
use crate::lines::Lines;
use crate::list::TurnList;
use crate::listing::Fault;
use calls::call::Call;

// What the line of this number says.
fn item(text: &[u8], line: usize) -> Result<Call, Fault>
    ensures { result ≡ numbered line (line_says text.now) }
{
    call_in(text).map_err(|fault| Fault::Line { line, fault })
}

impl<'a> Turns<'a> {
    // The turns of these bytes, from the first line on. The lines are the bytes.
    pub(crate) fn new(bytes: &'a [u8]) -> Turns<'a>
        ensures items { items_left result ≡ items bytes.now }
        ensures lines { LinesOfBytes bytes.now (lines_of bytes.now) }
    {
        let lines = Lines::new(bytes);
        Turns { lines, count: 0 }
    }
}

// The turns of a list, unless it is too long; no line is read for that.
impl<'a> TryFrom<&'a [u8]> for Turns<'a> {
    type Error = ListFault;

    ghost try_from_gives = { λ bytes answer. Admitted bytes.now answer };

    fn try_from(bytes: &'a [u8]) -> Result<Turns<'a>, ListFault> {
        Ok(TurnList::try_from(bytes)?.turns())
    }
}

impl<'a> Iterator for Turns<'a> {
    type Item = Result<Call, Fault>;

    ghost next_gives = { YieldsFirst items_left };

    ghost remaining = { item_count items_left };

    // The call of the next line, or its fault. A faulty line spoils only itself.
    fn next(&mut self) -> Option<Result<Call, Fault>> {
        let text = self.lines.next()?;
        self.count += 1;
        Some(item(text, self.count))
    }
}
