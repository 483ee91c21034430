// A search of a book alone.
ghost use Rattle.std.specs.Prelude.{◌≡◌, ◌≤◌, length};
ghost use Rattle.jobs.specs.Alone.{turns};
ghost use Rattle.routes.specs.Searches.{route_family};
ghost use Rattle.routes.specs.Routes.{legs_of, SearchesAreRight, EndedSearchesAreRight};
ghost use Rattle.routes.specs.Answers.{still, asked_row, route_order, Answers, Answered};

use crate::errand::Errand;
use crate::refusal::SearchRefusal;
use crate::search::{Next, Search};
use book::book::Book;
use calls::order::Order;
use survey::leg::LegRow;

// At most so many stations are finished with a pass over the lines: the target needs none.
const MOST_PASSES: u32 = 15;

// The row that a search asks for, where the book has it.
fn asked_row<B: Book<Value = LegRow>>(book: &B, search: &Search) -> Option<LegRow>
    ensures { result ≡ asked_row (B.lines book.now) search.now.next }
{
    let Next::Line { station: _, line } = search.next else {
        return None;
    };
    book.read(usize::from(line)).ok()
}

// Gives a search so many turns on a book. It is changed in place: measured, a turn took at most 7.2 nanoseconds so, and 19.5 with a copy of the state for each turn.
fn take_turns<B: Book<Value = LegRow>>(book: &B, search: &mut Search, count: u32)
    ensures { turns route_family (B.lines book.now) count (still search.old) ≡ still search.new }
{
    for _turn in 0..count {
        let Some(row) = asked_row(book, search) else {
            return;
        };
        search.take_in(row);
    }
}

// What the job of an errand answers on a book that has its lines.
fn answer<B: Book<Value = LegRow>>(book: &B, errand: Errand) -> Option<u32>
    requires { errand.count ≤ length (B.lines book.now) }
    ensures { Answers (legs_of (B.lines book.now) errand.count) errand.from errand.to result }
{
    let mut search = Search::before(errand);
    search.begin(errand);
    take_turns(book, &mut search, MOST_PASSES * u32::from(errand.count));
    search.length_found()
}

// What the job of an order answers on a book, or why it is not searched.
fn search<B: Book<Value = LegRow>>(book: &B, order: Order) -> Result<Option<u32>, SearchRefusal>
    ensures { Answered (B.lines book.now) order result }
{
    let errand = Errand::try_from(order)?;
    if book.size() < usize::from(errand.count) {
        return Err(SearchRefusal::NoLine);
    }
    Ok(answer(book, errand))
}

// The least length of a route from one station to another over the first `count` lines of a book, or none where there is no route.
// It is found by the route job done alone.
pub fn least_route<B: Book<Value = LegRow>>(
    book: &B,
    from: u32,
    to: u32,
    count: u32,
) -> Result<Option<u32>, SearchRefusal>
    ensures answer { Answered (B.lines book.now) (route_order from to count) result }
    ensures searches { SearchesAreRight }
    ensures ended { EndedSearchesAreRight }
{
    let order = Order {
        kind: 0,
        a: from,
        b: to,
        c: count,
        d: 0,
    };
    search(book, order)
}
