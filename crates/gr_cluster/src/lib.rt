//! A cluster as tables of plain data, and what each event makes of it. Definitions alone.
#![tactic(auto)]
