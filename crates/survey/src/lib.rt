// What a survey book is about: legs and metres of rope, their ranges, their rows and their bytes.
#![tactic(auto)]

pub mod bytes;
pub mod fault;
pub mod leg;
pub mod metres;
pub mod passage;
pub mod row;
