// One call of a session.
use crate::order::Order;

#[derive(Clone, Copy, Debug, PartialEq, Eq)]
pub enum Call {
    // A job with this order takes a vacant seat.
    Start { seat: u32, order: Order },
    // The job of the seat does one request.
    Step { seat: u32 },
    // The job of the seat gives up.
    Withdraw { seat: u32 },
    // A line of the book is read, by no job.
    Look { line: u32 },
}
