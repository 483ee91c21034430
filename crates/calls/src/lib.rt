// What is asked of a session, what a step answers, and why a call is refused.
#![tactic(auto)]

pub mod answer;
pub mod call;
pub mod ending;
pub mod order;
pub mod refusal;
