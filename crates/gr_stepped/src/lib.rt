//! Clusters that are stepped through small worlds, step by step. It has tests only.
#![tactic(auto)]

#[cfg(test)]
mod tests;
