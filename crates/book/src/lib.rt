// Books: what a book is, a book over lent memory, a part of any book, and the lines of any book in order.
#![tactic(auto)]

pub mod book;
pub mod chapter;
pub mod flat;
pub mod refusal;
pub mod rows;
