// Loads a book file into a book.
ghost use Rattle.std.specs.Prelude.{◌≡◌, length};
ghost use Rattle.bookfile.specs.Loads.{loaded, Loads};
ghost use Rattle.bookfile.specs.Meanings.{Exactly};

use crate::check::check;
use crate::fault::FileFault;
use crate::pairs::Pairs;
use book::book::Book;
use survey::row::Row;

impl<'a, R: Row> Pairs<'a, R> {
    // Writes each pair to its line, in order, where the book has that line.
    fn load<B: Book<Value = R>>(&self, book: &mut B)
        ensures { B.Book.lines book.new ≡ loaded R.Row.format self.now.count self.now.bytes.now 0 self.now.count (B.Book.lines book.old) }
    {
        for pair in self.iter() {
            let _ = book.write(pair.line, pair.row);
        }
    }
}

// Checks the whole file first and then writes its pairs in order; a file with a fault changes no line.
pub fn load<R: Row, B: Book<Value = R>>(bytes: &[u8], book: &mut B) -> Result<(), FileFault>
    ensures loads { Loads R.Row.format bytes.now (B.Book.lines book.old) (B.Book.lines book.new) result }
    ensures exactly { Exactly R.Row.format (length (B.Book.lines book.old)) bytes.now }
{
    let pairs = check::<R>(bytes, book.size())?;
    pairs.load(book);
    Ok(())
}
