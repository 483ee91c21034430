// Turn lists and listings at their edges.
#![tactic(auto)]

#[cfg(test)]
mod tests;
