// The four functions of an entry.
ghost use Rattle.families.specs.Laws.{EntriesAreRight};
ghost use Rattle.families.specs.Entries.{entry};

use super::{Entry, EntryRefusal, EntryState};
use calls::ending::{DONE, Ending};
use calls::order::Order;
use jobs::family::Family;
use jobs::request::Request;
use survey::leg::{Leg, LegRow};
use survey::row::Row;

impl Entry {
    #[tactic(auto, using(crate::proofs::Entering::entries_are_right))]
    pub fn new() -> Entry
        ensures { EntriesAreRight }
    {
        Entry
    }
}

impl Family for Entry {
    type State = Result<EntryState, EntryRefusal>;

    type Value = LegRow;

    ghost meaning = { λ _. entry };

    fn start(&self, order: Order) -> Self::State {
        // Kept a number: an enum of the two kinds would be matched right where it is made.
        match order.kind {
            0 => {
                let leg = Leg::open(order.b, order.c, order.d)?;
                Ok(EntryState::Writing {
                    line: order.a,
                    row: LegRow::from(leg),
                })
            }
            1 => Ok(EntryState::Closing { line: order.a }),
            _ => Err(EntryRefusal::BadOrder),
        }
    }

    fn request(&self, state: Self::State) -> Request<Self::Value> {
        match state {
            Ok(EntryState::Closing { line }) => Request::Read { line },
            Ok(EntryState::Writing { line, row }) => Request::Write { line, value: row },
            Ok(EntryState::Written) => Request::End(Ending {
                code: DONE,
                number: 0,
            }),
            Err(refusal) => Request::End(Ending::from(refusal)),
        }
    }

    fn after_read(&self, state: Self::State, value: LegRow) -> Self::State {
        match state {
            Ok(EntryState::Closing { line }) => Ok(EntryState::Writing {
                line,
                row: LegRow::from(value.or_blank().closed()),
            }),
            _ => state,
        }
    }

    fn after_write(&self, state: Self::State) -> Self::State {
        match state {
            Ok(EntryState::Writing { .. }) => Ok(EntryState::Written),
            _ => state,
        }
    }
}
