// The least length over all routes of a survey: a family of jobs that search a book of legs, and a search of a book alone.
#![tactic(auto)]

pub mod alone;
pub mod errand;
pub mod family;
pub mod reach;
pub mod refusal;
pub mod search;
