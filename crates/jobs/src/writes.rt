// The writes of a job, the oldest first: looked up, and put into a book.
ghost use Rattle.std.specs.Prelude.{◌≡◌, reverse};
ghost use Rattle.jobs.specs.Alone.{newest, applied};

use crate::written::Written;
use book::book::Book;

// The value of the newest write to a line.
pub fn newest_write<V: Copy>(writes: &[Written<V>], line: u32) -> Option<V>
    ensures { result ≡ newest (reverse writes.now) line }
{
    writes
        .iter()
        .rev()
        .find(|write| write.line == line)
        .map(|write| write.value)
}

// Puts the writes into a book, in their order.
#[tactic(auto, using(crate::proofs::Newest::applied_more, crate::proofs::Newest::reverse_all, book::proofs::Writing::writes_set))]
pub fn commit<B: Book>(writes: &[Written<B::Value>], book: &mut B)
    ensures { B.Book.lines book.new ≡ applied (reverse writes.now) (B.Book.lines book.old) }
{
    for write in writes {
        // a book that lacks the line refuses and stays as it was
        let _ = book.write(write.line as usize, write.value);
    }
}
