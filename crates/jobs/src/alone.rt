// A job done alone on a book until it ends.
ghost use Rattle.std.specs.Prelude.{◌≡◌};
ghost use Rattle.jobs.specs.Doing.{done, Means, Does};

use crate::error::JobError;
use crate::family::Family;
use crate::job::Job;
use book::book::Book;
use calls::ending::Ending;
use calls::order::Order;
use std::alloc::Global;

// Gives a job so many turns, fewer if it ends or is stuck.
fn run<F: Family, B: Book<Value = F::Value>>(
    job: &mut Job<F::State, F::Value>,
    family: &F,
    book: &mut B,
    turns: u32,
) -> Result<Option<Ending>, JobError>
    ensures { record { outcome = result; values = B.Book.lines book.new } ≡ done (F.Family.meaning family.now) (B.Book.lines book.old) turns job.old }
{
    for _turn in 0..turns {
        if let Some(ending) = job.turn(family, book)? {
            return Ok(Some(ending));
        }
    }
    Ok(None)
}

// Does the job of an order alone on a book, in so many turns at most: how it ends, or none if the turns are spent.
// The book changes only if the job ends.
#[tactic(auto, using(crate::proofs::Outcomes::does_so, crate::proofs::Outcomes::means_so))]
pub fn do_alone<F: Family, B: Book<Value = F::Value>>(
    heap: Global,
    family: &F,
    book: &mut B,
    order: Order,
    turns: u32,
) -> Result<Option<Ending>, JobError>
    ensures done { Does (F.Family.meaning family.now) order turns (B.Book.lines book.old) (B.Book.lines book.new) result }
    ensures means { Means (F.Family.meaning family.now) order (B.Book.lines book.old) turns result (B.Book.lines book.new) }
{
    let mut job = Job::start(heap, family, order)?;
    run(&mut job, family, book, turns)
}
