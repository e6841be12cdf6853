//! The invariant of a cluster, and what is to be proved of every run. Definitions and statements alone.
#![tactic(auto)]
