// Copies a book into another by way of a file.
ghost use Rattle.std.specs.Prelude.{◌≡◌, length};
ghost use Rattle.bookfile.specs.Copies.{Copies};
ghost use Rattle.bookfile.specs.declared.copy.CopyRefusal.TheVariants.{Save, Load};

use crate::fault::FileFault;
use crate::load::load;
use crate::save::{SaveRefusal, save};
use book::book::Book;
use survey::row::Row;

#[derive(Clone, Copy, Debug, PartialEq, Eq)]
pub enum CopyRefusal {
    Save(SaveRefusal),
    Load(FileFault),
}

// kept: both conversions are written by hand, since those that thiserror derives do not say which error `?` makes.
impl From<SaveRefusal> for CopyRefusal {
    ghost from_gives = { λ refusal answer. answer ≡ Save refusal };

    fn from(refusal: SaveRefusal) -> CopyRefusal {
        CopyRefusal::Save(refusal)
    }
}

impl From<FileFault> for CopyRefusal {
    ghost from_gives = { λ fault answer. answer ≡ Load fault };

    fn from(fault: FileFault) -> CopyRefusal {
        CopyRefusal::Load(fault)
    }
}

// Saves `from` into `file` and loads that into `to`, which then has the same lines.
pub fn copy<R: Row, B: Book<Value = R>, C: Book<Value = R>>(
    from: &B,
    file: &mut [u8],
    to: &mut C,
) -> Result<(), CopyRefusal>
    ensures { Copies R.Row.format (B.Book.lines from.now) (length file.old) (C.Book.lines to.old) (C.Book.lines to.new) result }
{
    let size = save(from, file)?;
    load(&file[0..size], to)?;
    Ok(())
}
