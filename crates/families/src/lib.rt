// The families that enter and close legs, move rope and count it.
#![tactic(auto)]

pub mod count;
pub mod entry;
pub mod transfer;
