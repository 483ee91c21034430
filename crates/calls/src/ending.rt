// What a job ends with: a code, and a number whose meaning the code decides.
ghost use Rattle.std.specs.Prelude.{◌≡◌};
ghost use Rattle.calls.specs.Endings.{bad_ending};

use crate::order::BadOrder;

// The code of a job that did what it was asked.
pub const DONE: u32 = 0;

// The code of an order that no job can be made of, in every family.
pub const REFUSED: u32 = 9;

#[derive(Clone, Copy, Debug, PartialEq, Eq)]
pub struct Ending {
    // Kept a number: each family has its own codes, and a session hands them on unread.
    pub code: u32,
    pub number: u32,
}

// A bad order is refused alike, whatever the family.
impl From<BadOrder> for Ending {
    ghost from_gives = { λ _ ending. ending ≡ bad_ending };

    fn from(_bad: BadOrder) -> Ending {
        Ending {
            code: REFUSED,
            number: 0,
        }
    }
}
