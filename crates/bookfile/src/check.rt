// The check of a whole book file, before anything is written.
ghost use Rattle.std.specs.Prelude.{◌≡◌, ℕ, ◌≤◌, length, IfOk};
ghost use Rattle.bookfile.specs.Meanings.{Exactly};
ghost use Rattle.bookfile.specs.Files.{fault_of, pairs_fault, file_fault, stated_lines, Tells, TellsCause};

use crate::bytes::number;
use crate::fault::{FileCause, FileFault, located};
use crate::pair::Pair;
use crate::pairs::Pairs;
use book::book::MOST_LINES;
use survey::row::Row;

// The lines that the file states, at most 1,024: 0 where it has no room for the number.
pub fn stated_lines(bytes: &[u8]) -> usize
    ensures value { result ≡ stated_lines bytes.now }
    ensures bound { result ≤ 1024 }
{
    match bytes {
        [low, high, ..] => MOST_LINES.min(number(*low, *high)),
        _ => 0,
    }
}

// Whether a row is a value.
fn check_row<R: Row>(row: R) -> Result<(), FileCause>
    ensures { TellsCause (R.Row.format.fault row) result }
{
    let _value = R::Value::try_from(row)?;
    Ok(())
}

impl<R: Row> Pair<R> {
    // Whether the pair names a line below `lines` and holds a value.
    fn check(self, lines: usize) -> Result<(), FileFault>
        ensures { Tells (fault_of R.Row.format lines self) result }
    {
        if self.line >= lines {
            return located(Err(FileCause::Line), self.line_place);
        }
        located(check_row(self.row), self.value_place)
    }
}

impl<'a, R: Row> Pairs<'a, R> {
    // Whether each pair does.
    fn check(&self, lines: usize) -> Result<(), FileFault>
        ensures { Tells (pairs_fault R.Row.format lines self.now.count self.now.bytes.now 0 self.now.count) result }
    {
        for pair in self.iter() {
            pair.check(lines)?;
        }
        Ok(())
    }
}

// The pairs of a file that is right for a book of `lines` lines, or the first fault.
#[tactic(auto, using(crate::proofs::Exact::exactly))]
pub(crate) fn check<'a, R: Row>(bytes: &'a [u8], lines: usize) -> Result<Pairs<'a, R>, FileFault>
    ensures tells { Tells (file_fault R.Row.format lines bytes.now) result }
    ensures same { IfOk result (λ pairs. pairs.bytes.now ≡ bytes.now) }
    ensures exactly { (n : ℕ) → Exactly R.Row.format n bytes.now }
{
    let pairs = Pairs::<R>::of_file(bytes, lines)?;
    pairs.check(lines)?;
    Ok(pairs)
}
