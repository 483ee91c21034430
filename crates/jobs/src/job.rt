// A job that is done alone.
use crate::written::Written;
use std::marker::Model;

mod methods;

// Its state, and its writes, the oldest first: 16 at most, for which there is room from the start.
// Kept a list and no map: two writes to a line are two, and go into the book in their order.
#[derive(Drop)]
pub struct Job<S, V> {
    state: S,
    writes: Vec<Written<V>>,
}

// A job means its state and its writes, the newest first.
impl<S, V> Model for Job<S, V> {
    ghost use Rattle.std.specs.Prelude.{◌≤◌, length, reverse, vec_capacity};
    ghost use Rattle.jobs.specs.Alone.{Alone};

    ghost Value = { Alone V S };

    ghost view = { λ job. record { state = job.state; writes = reverse job.writes.items } };

    ghost invariant = { λ job. (length job.writes.items ≤ 16) × (16 ≤ vec_capacity job.writes) };
}
