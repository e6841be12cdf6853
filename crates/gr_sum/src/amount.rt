use gr_base::{OutOfMemory, push_number};
use gr_program::Datum;
use std::alloc::Global;

/// A number of 64 bits, whose text is its decimal numeral.
#[derive(Clone, Copy, Debug, PartialEq, Eq)]
pub struct Amount(pub u64);

impl Datum for Amount {
    ghost use Rattle.std.specs.Prelude.{[], ◌∷◌, decimal};
    ghost use Rattle.gr_sum.specs.Laws.Amounts.{amount_same, amount_tests, amount_width};

    ghost WIDTH = { 1 };

    ghost numbers_of = { λ a. a.0 ∷ [] };

    ghost text_of = { λ a. decimal a.0 };

    const WIDTH: usize = 1;

    fn number_at(&self, _i: usize) -> u64 {
        self.0
    }

    fn from_numbers(numbers: &[u64]) -> Option<Amount> {
        match numbers {
            [number] => Some(Amount(*number)),
            _ => None,
        }
    }

    fn push_text(&self, alloc: Global, into: &mut Vec<u8>) -> Result<(), OutOfMemory> {
        push_number(alloc, into, self.0)
    }

    ghost same = { amount_same };

    ghost width = { amount_width };

    ghost tests = { amount_tests };
}
