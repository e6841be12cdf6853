//! Tests of the texts and of the rounds over small uncut graphs. They need a concrete program and no cluster.
#![tactic(auto)]

#[cfg(test)]
mod tests;
