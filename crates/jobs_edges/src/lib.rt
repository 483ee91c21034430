// Examples of jobs done alone.
#![tactic(auto)]

#[cfg(test)]
mod tests;
