// What users see of a transfer that is refused.
ghost use Rattle.std.specs.Prelude.{◌≡◌};
ghost use Rattle.families.specs.Transfers.{refused};

use super::TransferRefusal;
use calls::ending::Ending;
use calls::order::BadOrder;

impl From<TransferRefusal> for Ending {
    ghost from_gives = { λ refusal ending. ending ≡ refused refusal };

    fn from(refusal: TransferRefusal) -> Ending {
        match refusal {
            TransferRefusal::TooFew => Ending { code: 1, number: 0 },
            TransferRefusal::TooMany => Ending { code: 2, number: 0 },
            TransferRefusal::BadOrder => Ending::from(BadOrder),
        }
    }
}
