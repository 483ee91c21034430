// The turns of a job alone.
ghost use Rattle.std.specs.Prelude.{◌≡◌, ◌≤◌, length, IfOk};
ghost use Rattle.std.specs.List.{slice_get};
ghost use Rattle.std.specs.Option.{ok_or, option_or};
ghost use Rattle.calls.specs.declared.refusal.Refusal.TheVariants.{NoLine};
ghost use Rattle.jobs.specs.Alone.{begun, turn, turn_at, newest};
ghost use Rattle.jobs.specs.Doing.{answer, answer_at, left};
ghost use Rattle.jobs.specs.declared.request.Request.TheVariants.{Read, Write};

use super::Job;
use crate::family::Family;
use crate::request::Request;
use crate::writes::{commit, newest_write};
use crate::written::Written;
use book::book::Book;
use calls::ending::Ending;
use calls::order::Order;
use calls::refusal::Refusal;
use std::alloc::{AllocError, Global};

// The most writes that a job holds.
pub const MOST_WRITES: usize = 16;

// A turn answers the ending if the job ended, none if it goes on, and a refusal if it is stuck.
// Kept two parameters, the family and the book: one struct of both would lend the book to be written where it is only read.
impl<S: Copy, V: Copy> Job<S, V> {
    // The job of an order, before its first turn.
    pub fn start<F: Family<State = S, Value = V>>(
        heap: Global,
        family: &F,
        order: Order,
    ) -> Result<Job<S, V>, AllocError>
        ensures { IfOk result (λ job. job ≡ begun (F.Family.meaning family.now) order) }
    {
        let writes = Vec::with_capacity(heap, MOST_WRITES)?;
        Ok(Job {
            state: family.start(order),
            writes,
        })
    }

    // How many writes it holds: 16 at most, of any job.
    pub fn held(&self) -> usize
        ensures value { result ≡ length self.now.writes }
        ensures few { result ≤ 16 }
    {
        self.writes.len()
    }

    // The newest own write to a line, else the book's value.
    fn value_of<B: Book<Value = V>>(&self, book: &B, line: u32) -> Result<V, Refusal>
        ensures { result ≡ ok_or (option_or (newest self.now.writes line) (slice_get (B.Book.lines book.now) line)) NoLine }
    {
        if let Some(value) = newest_write(&self.writes, line) {
            return Ok(value);
        }
        Ok(book.read(line as usize)?)
    }

    fn read<F: Family<State = S, Value = V>, B: Book<Value = V>>(
        &mut self,
        family: &F,
        book: &B,
        line: u32,
    ) -> Result<Option<Ending>, Refusal>
        ensures after { self.new ≡ turn_at (F.Family.meaning family.now) (B.Book.lines book.now) self.old (Read line) }
        ensures answer { result ≡ answer_at (F.Family.meaning family.now) (B.Book.lines book.now) self.old (Read line) }
    {
        let value = self.value_of(book, line)?;
        self.state = family.after_read(self.state, value);
        Ok(None)
    }

    fn write<F: Family<State = S, Value = V>, B: Book<Value = V>>(
        &mut self,
        family: &F,
        book: &B,
        line: u32,
        value: V,
    ) -> Result<Option<Ending>, Refusal>
        ensures after { self.new ≡ turn_at (F.Family.meaning family.now) (B.Book.lines book.now) self.old (Write line value) }
        ensures answer { result ≡ answer_at (F.Family.meaning family.now) (B.Book.lines book.now) self.old (Write line value) }
    {
        if line as usize >= book.size() {
            return Err(Refusal::NoLine);
        }
        if self.writes.len() >= MOST_WRITES {
            return Err(Refusal::TooManyWrites);
        }
        self.writes.push_reserved(Written { line, value });
        self.state = family.after_write(self.state);
        Ok(None)
    }

    // Does what the state asks for; the book changes only when the job ends.
    pub fn turn<F: Family<State = S, Value = V>, B: Book<Value = V>>(
        &mut self,
        family: &F,
        book: &mut B,
    ) -> Result<Option<Ending>, Refusal>
        ensures after { self.new ≡ turn (F.Family.meaning family.now) (B.Book.lines book.old) self.old }
        ensures answer { result ≡ answer (F.Family.meaning family.now) (B.Book.lines book.old) self.old }
        ensures left { B.Book.lines book.new ≡ left (F.Family.meaning family.now) (B.Book.lines book.old) self.old }
    {
        match family.request(self.state) {
            Request::Read { line } => self.read(family, book, line),
            Request::Write { line, value } => self.write(family, book, line, value),
            Request::End(ending) => {
                commit(&self.writes, book);
                Ok(Some(ending))
            }
        }
    }
}
