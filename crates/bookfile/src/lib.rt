// The book file: n lines and m pairs, then m line numbers, then m values, all little-endian.
#![tactic(auto)]

mod bytes;
mod check;
pub mod copy;
pub mod fault;
pub mod load;
mod pair;
mod pairs;
pub mod save;

pub use check::stated_lines;
