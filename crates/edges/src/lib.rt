// Examples at the edges of ranges, books and files.
#![tactic(auto)]

#[cfg(test)]
mod tests;
