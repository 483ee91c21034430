// The four functions of a count.
ghost use Rattle.families.specs.Laws.{CountsAreRight};
ghost use Rattle.families.specs.Counts.{count};

use super::{Count, Tally};
use calls::ending::{DONE, Ending};
use calls::order::{BadOrder, Order};
use jobs::family::Family;
use jobs::request::Request;
use survey::metres::MetresRow;
use survey::row::Row;

// The most lines that are counted.
pub const MOST_COUNTED: u32 = 64;

impl Count {
    #[tactic(auto, using(crate::proofs::Counting::counts_are_right))]
    pub fn new() -> Count
        ensures { CountsAreRight }
    {
        Count
    }
}

impl Family for Count {
    type State = Result<Tally, BadOrder>;

    type Value = MetresRow;

    ghost meaning = { λ _. count };

    fn start(&self, order: Order) -> Self::State {
        if order.kind != 0 || order.a > MOST_COUNTED {
            return Err(BadOrder);
        }
        Ok(Tally {
            line: 0,
            end: order.a,
            sum: 0,
        })
    }

    fn request(&self, state: Self::State) -> Request<Self::Value> {
        match state {
            Ok(Tally { line, end, .. }) if line < end => Request::Read { line },
            Ok(Tally { sum, .. }) => Request::End(Ending {
                code: DONE,
                number: sum,
            }),
            Err(bad) => Request::End(Ending::from(bad)),
        }
    }

    fn after_read(&self, state: Self::State, value: MetresRow) -> Self::State {
        let Tally { line, end, sum } = state?;
        Ok(Tally {
            line: line.saturating_add(1),
            end,
            sum: sum.saturating_add(value.or_blank().count()),
        })
    }

    // A count writes nothing.
    fn after_write(&self, state: Self::State) -> Self::State {
        state
    }
}
