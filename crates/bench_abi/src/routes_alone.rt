// A route job done alone, by numbers alone.
ghost use Rattle.std.specs.Prelude.{◌≡◌, take};
ghost use Rattle.routes.specs.Answers.{route_order};
ghost use Rattle.bench_abi.specs.Lengths.{answer_number, AnswersAs};

use book::flat::FlatBook;
use routes::alone::least_route;
use routes::refusal::SearchRefusal;
use survey::leg::LegRow;

const NO_ROUTE: u64 = 1 << 32;

// The length, or above all lengths what else was answered. Kept a number: `route_length` hands it to C, which takes no Result.
fn number_of(answer: Result<Option<u32>, SearchRefusal>) -> u64
    ensures { result ≡ answer_number answer }
{
    match answer {
        Ok(Some(length)) => u64::from(length),
        Ok(None) => NO_ROUTE,
        Err(refusal) => NO_ROUTE + u64::from(refusal.number()),
    }
}

// The least length over the first rows of a flat book: 2^32 where there is no route, and 2^32 and its number more at a refusal.
#[unsafe(no_mangle)]
pub extern "C" fn route_length(rows: &mut [LegRow], from: u32, to: u32, count: u32) -> u64
    ensures { AnswersAs (take 1024 rows.old) (route_order from to count) result }
{
    let book = FlatBook::new(rows);
    number_of(least_route(&book, from, to, count))
}
