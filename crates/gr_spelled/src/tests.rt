// Bytes of worked cases, and batches on their way.
mod flights;
mod spellings;
