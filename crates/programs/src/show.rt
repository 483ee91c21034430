// Shows a book file: the lines of the book that it makes, or its fault.
ghost use Rattle.std.specs.Prelude.{◌≡◌, take, replicate, IfOk, string_bytes, OnOk};
ghost use Rattle.script.specs.Listing.{look_line, fault_line};
ghost use Rattle.bookfile.specs.Files.{stated_lines};
ghost use Rattle.survey.specs.Formats.{or_blank};
ghost use Rattle.programs.specs.Shows.{Adds, book_lines, lines_or_fault, shown};
ghost use Rattle.script.specs.declared.listing.Fault.TheVariants.{File};

use crate::memory::NoMemory;
use book::book::Book;
use book::flat::FlatBook;
use book::rows::Rows;
use bookfile::fault::FileFault;
use bookfile::load::load;
use bookfile::stated_lines;
use script::listing::{Fault, LookLine};
use std::alloc::Global;
use std::fmt::Write;
use survey::row::Row;

// Adds a line of the book, as looking at it prints it.
fn push_line<R: Row>(out: &mut String, line: usize, row: R) -> Result<(), NoMemory>
    ensures { OnOk result (Adds out.old (look_line line (R.Row.format.text (or_blank R.Row.format row))) out.new) }
{
    let value = row.or_blank();
    write!(out, "{}", LookLine { line, value })?;
    Ok(())
}

// Adds every line of a book.
pub fn push_book<R: Row, B: Book<Value = R>>(out: &mut String, book: &B) -> Result<(), NoMemory>
    ensures { OnOk result (Adds out.old (book_lines R.Row.format 0 (B.Book.lines book.now)) out.new) }
{
    for (line, row) in Rows::new(book).enumerate() {
        push_line(out, line, row)?;
    }
    Ok(())
}

// Adds the fault of a file.
fn push_fault(out: &mut String, fault: FileFault) -> Result<(), NoMemory>
    ensures { OnOk result (Adds out.old (fault_line (File fault)) out.new) }
{
    write!(out, "{}", Fault::from(fault))?;
    Ok(())
}

// So many blank rows.
fn blank_lines<R: Row>(heap: Global, count: usize) -> Result<Vec<R>, NoMemory>
    ensures { IfOk result (λ rows. rows.items ≡ replicate count R.Row.format.blank) }
{
    // kept: `vec!` says only that its elements are clones, and of a clone of a generic row no clause says that it is the row.
    let mut rows = Vec::new(heap);
    rows.resize(count, R::from(R::blank()))?;
    Ok(rows)
}

// Memory for the book of a file: as many blank rows as it states.
fn blank_book<R: Row>(heap: Global, file: &[u8]) -> Result<Vec<R>, NoMemory>
    ensures { IfOk result (λ rows. take 1024 rows.items ≡ replicate (stated_lines file.now) R.Row.format.blank) }
{
    blank_lines(heap, stated_lines(file))
}

// Loads a file into a book and adds every line of it, or the fault of the file and nothing else.
fn push_loaded<R: Row, B: Book<Value = R>>(
    out: &mut String,
    file: &[u8],
    book: &mut B,
) -> Result<(), NoMemory>
    ensures { OnOk result (Adds out.old (lines_or_fault R.Row.format file.now (B.Book.lines book.old)) out.new) }
{
    match load(file, book) {
        Ok(()) => push_book(out, book),
        Err(fault) => push_fault(out, fault),
    }
}

// The listing of a book file: every line of its book, or its fault and nothing else.
pub fn show<R: Row>(heap: Global, file: &[u8]) -> Result<String, NoMemory>
    ensures { IfOk result (λ text. string_bytes text ≡ shown R.Row.format file.now) }
{
    let mut rows = blank_book::<R>(heap, file)?;
    let mut book = FlatBook::new(rows.as_mut_slice());
    let mut out = String::new(heap);
    push_loaded(&mut out, file, &mut book)?;
    Ok(out)
}
