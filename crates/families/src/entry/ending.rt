// What users see of an entry that is refused.
ghost use Rattle.std.specs.Prelude.{◌≡◌};
ghost use Rattle.families.specs.Entries.{refused};

use super::EntryRefusal;
use calls::ending::{Ending, REFUSED};
use calls::order::BadOrder;

impl From<EntryRefusal> for Ending {
    ghost from_gives = { λ refusal ending. ending ≡ refused refusal };

    fn from(refusal: EntryRefusal) -> Ending {
        match refusal {
            EntryRefusal::Impossible(fault) => Ending {
                code: REFUSED,
                number: fault.number(),
            },
            EntryRefusal::BadOrder => Ending::from(BadOrder),
        }
    }
}
