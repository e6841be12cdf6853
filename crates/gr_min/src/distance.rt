ghost use Rattle.std.specs.Prelude.{◌≡◌, ◌++◌, OnOk, OnErr};
ghost use Rattle.gr_min.specs.Told.{told};

use gr_base::{OutOfMemory, push_number};
use gr_program::Datum;
use std::alloc::Global;

/// The length of a path, `u64::MAX` where there is none. Its text is the number, or `inf`.
#[derive(Clone, Copy, Debug, PartialEq, Eq)]
pub struct Distance(pub u64);

impl Datum for Distance {
    ghost use Rattle.std.specs.Prelude.{[], ◌∷◌};
    ghost use Rattle.gr_min.specs.Told.{told as text};
    ghost use Rattle.gr_min.specs.Laws.Distances.{distance_same, distance_tests, distance_width};

    ghost WIDTH = { 1 };

    ghost numbers_of = { λ d. d.0 ∷ [] };

    ghost text_of = { λ d. text d.0 };

    const WIDTH: usize = 1;

    fn number_at(&self, _i: usize) -> u64 {
        self.0
    }

    fn from_numbers(numbers: &[u64]) -> Option<Distance> {
        match numbers {
            [number] => Some(Distance(*number)),
            _ => None,
        }
    }

    fn push_text(&self, alloc: Global, into: &mut Vec<u8>) -> Result<(), OutOfMemory> {
        push_told(alloc, into, self.0)
    }

    ghost same = { distance_same };

    ghost width = { distance_width };

    ghost tests = { distance_tests };
}

// Appends the text of a number that may be infinite.
pub fn push_told(alloc: Global, into: &mut Vec<u8>, n: u64) -> Result<(), OutOfMemory>
    ensures ok { OnOk result (into.new.items ≡ into.old.items ++ told n) }
    ensures err { OnErr result (into.new.items ≡ into.old.items) }
{
    if n == u64::MAX {
        into.extend_from_slice(b"inf")?;
        Ok(())
    } else {
        push_number(alloc, into, n)
    }
}
