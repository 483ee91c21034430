// Route jobs at their edges, and against another method.
#![tactic(auto)]

#[cfg(test)]
mod tests;
