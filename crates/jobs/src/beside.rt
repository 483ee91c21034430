// Two families side by side.
ghost use Rattle.std.specs.Prelude.{◌≡◌};
ghost use Rattle.jobs.specs.Pairs.{beside, EndsAsItsOwn};

use crate::family::Family;
use crate::request::Request;
use calls::order::Order;
use either::{Either, Left, Right};

// Kind 0 goes to the first family, and kind k above 0 to the second as k - 1.
#[derive(Drop)]
pub struct Beside<F, G> {
    first: F,
    second: G,
}

impl<F: Family, G: Family<Value = F::Value>> Beside<F, G> {
    #[tactic(auto, using(crate::proofs::Pairing::ends_as_its_own))]
    pub fn new(first: F, second: G) -> Beside<F, G>
        ensures fields { result ≡ record { first = first; second = second } }
        ensures own { EndsAsItsOwn (F.Family.meaning first) (G.Family.meaning second) }
    {
        Beside { first, second }
    }
}

impl<F: Family, G: Family<Value = F::Value>> Family for Beside<F, G> {
    type State = Either<F::State, G::State>;

    type Value = F::Value;

    ghost meaning = { λ s. beside (F.Family.meaning s.first) (G.Family.meaning s.second) };

    fn start(&self, order: Order) -> Self::State {
        match order.kind.checked_sub(1) {
            None => Left(self.first.start(order)),
            Some(kind) => Right(self.second.start(Order { kind, ..order })),
        }
    }

    fn request(&self, state: Self::State) -> Request<Self::Value> {
        state.either(
            |state| self.first.request(state),
            |state| self.second.request(state),
        )
    }

    fn after_read(&self, state: Self::State, value: Self::Value) -> Self::State {
        state.map_either(
            |state| self.first.after_read(state, value),
            |state| self.second.after_read(state, value),
        )
    }

    fn after_write(&self, state: Self::State) -> Self::State {
        state.map_either(
            |state| self.first.after_write(state),
            |state| self.second.after_write(state),
        )
    }
}
