//! What holds of the spellings of batches.

ghost use Rattle.gr_batch.specs.Telling.{telling};
ghost use Rattle.gr_batch.specs.Spelling.{NoSpellingBeginsAnother};

use gr_program::Datum;

/// No spelling of a batch begins that of another. So bytes spell one batch at most, and of batches that are spelled
/// one after another it is known where each ends.
pub fn no_spelling_begins_another<V: Datum, A: Datum>()
    ensures { NoSpellingBeginsAnother (telling V.numbers_of A.numbers_of) }
{}
