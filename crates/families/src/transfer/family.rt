// The four functions of a transfer.
ghost use Rattle.std.specs.Prelude.{◌≡◌};
ghost use Rattle.families.specs.Laws.{TransfersAreRight};
ghost use Rattle.families.specs.Transfers.{transfer, decided};

use super::{Move, Transfer, TransferRefusal, TransferState};
use calls::ending::{DONE, Ending};
use calls::order::Order;
use jobs::family::Family;
use jobs::request::Request;
use survey::metres::{MOST_METRES, Metres, MetresRow};
use survey::row::Row;

impl Move {
    // Whether the metres can go from a line that holds some to one that has some.
    fn decide(self, held: u32, there: Metres) -> Result<TransferState, TransferRefusal>
        ensures { result ≡ decided self held there.row.count }
    {
        if held < self.metres {
            return Err(TransferRefusal::TooFew);
        }
        if self.metres > MOST_METRES - there.count() {
            return Err(TransferRefusal::TooMany);
        }
        Ok(TransferState::Taking {
            from: self.from,
            left: held - self.metres,
            to: self.to,
            total: there.count() + self.metres,
        })
    }
}

impl Transfer {
    #[tactic(auto, using(crate::proofs::Moving::transfers_are_right))]
    pub fn new() -> Transfer
        ensures { TransfersAreRight }
    {
        Transfer
    }
}

impl Family for Transfer {
    type State = Result<TransferState, TransferRefusal>;

    type Value = MetresRow;

    ghost meaning = { λ _. transfer };

    fn start(&self, order: Order) -> Self::State {
        if order.kind != 0 || order.a == order.b {
            return Err(TransferRefusal::BadOrder);
        }
        Ok(TransferState::Leaving(Move {
            from: order.a,
            to: order.b,
            metres: order.c,
        }))
    }

    fn request(&self, state: Self::State) -> Request<Self::Value> {
        match state {
            Ok(TransferState::Leaving(asked)) => Request::Read { line: asked.from },
            Ok(TransferState::Coming { asked, .. }) => Request::Read { line: asked.to },
            Ok(TransferState::Taking { from, left, .. }) => Request::Write {
                line: from,
                value: MetresRow { count: left },
            },
            Ok(TransferState::Giving { to, total }) => Request::Write {
                line: to,
                value: MetresRow { count: total },
            },
            Ok(TransferState::Given) => Request::End(Ending {
                code: DONE,
                number: 0,
            }),
            Err(refusal) => Request::End(Ending::from(refusal)),
        }
    }

    fn after_read(&self, state: Self::State, value: MetresRow) -> Self::State {
        let there = value.or_blank();
        match state? {
            TransferState::Leaving(asked) => Ok(TransferState::Coming {
                asked,
                held: there.count(),
            }),
            TransferState::Coming { asked, held } => asked.decide(held, there),
            _ => state,
        }
    }

    fn after_write(&self, state: Self::State) -> Self::State {
        match state {
            Ok(TransferState::Taking { to, total, .. }) => Ok(TransferState::Giving { to, total }),
            Ok(TransferState::Giving { .. }) => Ok(TransferState::Given),
            _ => state,
        }
    }
}
