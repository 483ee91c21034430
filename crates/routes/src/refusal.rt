// Why a book is not searched.
ghost use Rattle.std.specs.Prelude.{◌≡◌};
ghost use Rattle.routes.specs.Refusals.{number};
ghost use Rattle.routes.specs.declared.refusal.SearchRefusal.TheVariants as refusal;

use calls::ending::REFUSED;
use calls::order::BadOrder;
use calls::refusal::Refusal;

#[derive(Clone, Copy, Debug, PartialEq, Eq)]
pub enum SearchRefusal {
    // A station above 15, or more than 64 lines.
    BadOrder,
    // The book lacks one of the lines.
    NoLine,
}

impl SearchRefusal {
    // The number by which the refusal is printed. Kept a method: `From` would read as if the number were the refusal.
    pub fn number(self) -> u32
        ensures { result ≡ number self }
    {
        match self {
            SearchRefusal::BadOrder => REFUSED,
            SearchRefusal::NoLine => Refusal::NoLine.number(),
        }
    }
}

impl From<BadOrder> for SearchRefusal {
    ghost from_gives = { λ _ given. given ≡ refusal.BadOrder };

    fn from(_bad: BadOrder) -> SearchRefusal {
        Self::BadOrder
    }
}
