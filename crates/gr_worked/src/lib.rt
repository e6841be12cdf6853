//! Worked runs of the definitions, by computation. Proofs alone.
#![tactic(auto)]
