// Families of jobs, and jobs done alone.
#![tactic(auto)]

pub mod alone;
pub mod beside;
pub mod error;
pub mod family;
pub mod job;
pub mod request;
pub mod writes;
pub mod written;
