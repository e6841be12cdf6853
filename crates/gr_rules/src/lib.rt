//! What a place sends and stages in a round and in a rebuild, as selections of its rows. Definitions alone.
#![tactic(auto)]
