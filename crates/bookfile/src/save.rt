// Saves a book as a book file.
ghost use Rattle.std.specs.Prelude.{◌≡◌, ℕ, ◌+◌, ◌*◌, ◌<◌, ◌≤◌, ◌++◌, length, take, IfOk};
ghost use Rattle.std.specs.List.{flat_map};
ghost use Rattle.survey.specs.Bytes.{pasted, two_bytes};
ghost use Rattle.bookfile.specs.Faults.{save_number};
ghost use Rattle.bookfile.specs.Files.{file_size};
ghost use Rattle.bookfile.specs.Saves.{numbers, value_bytes, file_of, Saves, PutsFront, KeepsLines};

use crate::pairs::file_size;
use book::book::Book;
use book::rows::Rows;
use std::convert::AsSlice;
use survey::bytes::put;
use survey::row::Row;

#[derive(Clone, Copy, Debug, PartialEq, Eq)]
pub enum SaveRefusal {
    // The output has no room for the file.
    ShortOutput,
}

impl SaveRefusal {
    // The number by which the refusal is printed. Kept a method: `From` would read as if the number were the refusal.
    pub fn number(self) -> u32
        ensures { result ≡ save_number self }
    {
        match self {
            SaveRefusal::ShortOutput => 36,
        }
    }
}

// Writes bytes where they fit, and answers the place behind them.
// kept: output and place are handed on apart; a struct of both would ask for the same room in each call, and promise there too that it still holds the same output.
fn paste(out: &mut [u8], place: usize, bytes: &[u8]) -> usize
    requires { place + length bytes.now ≤ length out.old }
    ensures place { result ≡ place + length bytes.now }
    ensures out { out.new ≡ pasted out.old place bytes.now }
{
    put(out, place, bytes).unwrap()
}

// n and m, which are equal, since each line is a pair.
fn put_head(out: &mut [u8], lines: usize) -> usize
    requires { (lines ≤ 1024) × (4 ≤ length out.old) }
    ensures place { result ≡ 4 }
    ensures out { out.new ≡ pasted out.old 0 (two_bytes lines ++ two_bytes lines) }
{
    let [low, high] = (lines as u16).to_le_bytes();
    paste(out, 0, &[low, high, low, high])
}

// The numbers of the lines.
fn put_numbers(out: &mut [u8], place: usize, lines: usize) -> usize
    requires { (lines ≤ 1024) × (place + 2 * lines ≤ length out.old) }
    ensures place { result ≡ place + 2 * lines }
    ensures out { out.new ≡ pasted out.old place (numbers lines) }
{
    let mut place = place;
    for line in 0..lines {
        place = paste(out, place, &(line as u16).to_le_bytes());
    }
    place
}

// The values of the lines, from `place` on.
fn put_values<R: Row, B: Book<Value = R>>(book: &B, out: &mut [u8], place: usize)
    requires { place + R.Row.format.width * length (B.Book.lines book.now) ≤ length out.old }
    ensures { out.new ≡ pasted out.old place (flat_map (value_bytes R.Row.format) (B.Book.lines book.now)) }
{
    let mut place = place;
    for row in Rows::new(book) {
        place = put_value(row, out, place);
    }
}

// The value that a row counts as.
fn put_value<R: Row>(row: R, out: &mut [u8], place: usize) -> usize
    requires { place + R.Row.format.width ≤ length out.old }
    ensures place { result ≡ place + R.Row.format.width }
    ensures out { out.new ≡ pasted out.old place (value_bytes R.Row.format row) }
{
    paste(out, place, R::encode(row.or_blank()).as_slice())
}

// The length of the file of a book.
fn saved_size<R: Row, B: Book<Value = R>>(book: &B) -> usize
    ensures value { result ≡ length (file_of R.Row.format (B.Book.lines book.now)) }
    ensures stated { result ≡ file_size R.Row.format (length (B.Book.lines book.now)) }
    ensures few { length (B.Book.lines book.now) ≤ 1024 }
{
    file_size::<R>(book.size())
}

// Writes the file of a book at the front of `out`.
fn put_file<R: Row, B: Book<Value = R>>(book: &B, out: &mut [u8])
    requires { file_size R.Row.format (length (B.Book.lines book.now)) ≤ length out.old }
    ensures put { PutsFront (file_of R.Row.format (B.Book.lines book.now)) out.old out.new }
    ensures keeps { (size : ℕ) → size ≡ length (file_of R.Row.format (B.Book.lines book.now)) → KeepsLines R.Row.format (B.Book.lines book.now) (take size out.new) }
{
    let lines = book.size();
    let place = put_head(out, lines);
    let place = put_numbers(out, place, lines);
    put_values(book, out, place);
}

// Writes each line once, in order, and answers the length of the file; where it does not fit, writes nothing.
pub fn save<R: Row, B: Book<Value = R>>(book: &B, out: &mut [u8]) -> Result<usize, SaveRefusal>
    ensures saves { Saves R.Row.format (B.Book.lines book.now) out.old out.new result }
    ensures keeps { IfOk result (λ size. KeepsLines R.Row.format (B.Book.lines book.now) (take size out.new)) }
    ensures few { length (B.Book.lines book.now) ≤ 1024 }
{
    let size = saved_size(book);
    if size > out.len() {
        return Err(SaveRefusal::ShortOutput);
    }
    put_file(book, out);
    Ok(size)
}
