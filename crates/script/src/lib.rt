// The turn list, read where it lies, and the listing's bytes.
#![tactic(auto)]

pub mod call_line;
pub mod command;
mod cut;
pub mod fault;
pub mod letter;
pub mod lines;
pub mod list;
pub mod listing;
pub mod number;
pub mod reader;
pub mod turns;
pub mod word;
pub mod words;
