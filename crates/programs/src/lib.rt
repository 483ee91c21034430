// What the programs do between reading and printing.
#![tactic(auto)]

pub mod files;
pub mod memory;
pub mod show;
pub mod viewer;
