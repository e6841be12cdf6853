//! Tests of the bytes of batches and of the flight. They need a concrete program and no cluster.
#![tactic(auto)]

#[cfg(test)]
mod tests;
