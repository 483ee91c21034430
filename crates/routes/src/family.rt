// The family of jobs that search a book of legs.
ghost use Rattle.std.specs.Prelude.{◌≡◌};
ghost use Rattle.routes.specs.Searches.{ending_of, request_of, route_family};

use crate::errand::Errand;
use crate::search::{Next, Search};
use calls::ending::{DONE, Ending};
use calls::order::{BadOrder, Order};
use jobs::family::Family;
use jobs::request::Request;
use survey::leg::LegRow;

// The most lines that are searched.
pub const MOST_SEARCHED: u32 = 64;

// The code of a search that found no route; the number is 0. With a route, it has done what was asked, and the number is its length.
pub const NO_ROUTE: u32 = 1;

// Kind 0 finds the least length of a route from station a to station b over the lines below c.
#[derive(Clone, Copy)]
pub struct Route;

// The code and the number by which a job of this family tells what its search found.
fn ending(found: Option<u32>) -> Ending
    ensures { result ≡ ending_of found }
{
    match found {
        Some(length) => Ending {
            code: DONE,
            number: length,
        },
        None => Ending {
            code: NO_ROUTE,
            number: 0,
        },
    }
}

impl Search {
    // What the job of this search asks for.
    fn request(&self) -> Request<LegRow>
        ensures { result ≡ request_of self.now.next }
    {
        match self.next {
            Next::Line { line, .. } => Request::Read {
                line: u32::from(line),
            },
            Next::Ended(found) => Request::End(ending(found)),
        }
    }
}

impl Family for Route {
    type State = Result<Search, BadOrder>;

    type Value = LegRow;

    ghost meaning = { λ _. route_family };

    fn start(&self, order: Order) -> Self::State {
        let errand = Errand::try_from(order)?;
        let mut search = Search::before(errand);
        search.begin(errand);
        Ok(search)
    }

    fn request(&self, state: Self::State) -> Request<Self::Value> {
        match state {
            Ok(search) => search.request(),
            Err(bad) => Request::End(Ending::from(bad)),
        }
    }

    fn after_read(&self, state: Self::State, value: LegRow) -> Self::State {
        let mut state = state;
        if let Ok(search) = &mut state {
            search.take_in(value);
        }
        state
    }

    // A search writes nothing.
    fn after_write(&self, state: Self::State) -> Self::State {
        state
    }
}
