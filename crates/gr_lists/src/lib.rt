//! Lists: how many elements pass a test, and what each element meets, as lists change. Lemmas alone.
#![tactic(auto)]
