// Texts, and ranks of small graphs.
mod lines;
mod ranks;
