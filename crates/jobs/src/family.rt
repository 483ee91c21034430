// What a family of jobs is.
ghost use Rattle.std.specs.Prelude.{◌≡◌};
ghost use Rattle.jobs.specs.Meanings.{Meaning};

use crate::request::Request;
use calls::order::Order;

// A family means four functions; its calls answer exactly these.
// Kept plain data and no closures: a state is copied, so that a job can go back to it.
pub trait Family {
    // All that a job goes on with.
    type State: Copy;

    // The rows that its jobs read and write.
    type Value: Copy;

    ghost meaning: { Self → Meaning Self.Value Self.State };

    // The first state of an order.
    fn start(&self, order: Order) -> Self::State
        ensures { result ≡ (meaning self.now).first order };

    // What a state asks for.
    fn request(&self, state: Self::State) -> Request<Self::Value>
        ensures { result ≡ (meaning self.now).request state };

    // The state after a value is read.
    fn after_read(&self, state: Self::State, value: Self::Value) -> Self::State
        ensures { result ≡ (meaning self.now).after_read state value };

    // The state after a write is taken.
    fn after_write(&self, state: Self::State) -> Self::State
        ensures { result ≡ (meaning self.now).after_write state };
}
