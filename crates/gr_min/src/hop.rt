ghost use Rattle.std.specs.Prelude.{◌≡◌, ◌++◌, ◌≤◌, codes, length, take, OnOk, OnErr};
ghost use Rattle.gr_min.specs.Told.{told};
ghost use Rattle.gr_min.specs.Together.{AreTogether};

use crate::distance::push_told;
use gr_base::OutOfMemory;
use gr_program::Datum;
use std::alloc::Global;

/// How a vertex is reached with the fewest edges: their number, and the vertex before it. Both are `u64::MAX` where it
/// is not reached. The text has both numbers, `inf` in the place of each that is infinite.
#[derive(Clone, Copy, Debug, PartialEq, Eq)]
pub struct Hop {
    /// The id of the vertex itself.
    pub at: u64,
    pub distance: u64,
    pub parent: u64,
    ghost together: { AreTogether distance parent },
}

/// The least distance that was offered to a vertex, and the least vertex that offered it.
#[derive(Clone, Copy, Debug, PartialEq, Eq)]
pub struct HopSum {
    pub distance: u64,
    pub parent: u64,
    ghost together: { AreTogether distance parent },
}

impl Datum for Hop {
    ghost use Rattle.std.specs.Prelude.{[], ◌∷◌, ◌++◌, codes};
    ghost use Rattle.gr_min.specs.Told.{told as text};
    ghost use Rattle.gr_min.specs.Laws.HopNumbers.{hop_same, hop_tests, hop_width};

    ghost WIDTH = { 3 };

    ghost numbers_of = { λ h. h.at ∷ h.distance ∷ h.parent ∷ [] };

    ghost text_of = { λ h. text h.distance ++ codes " " ++ text h.parent };

    const WIDTH: usize = 3;

    fn number_at(&self, i: usize) -> u64 {
        match i {
            0 => self.at,
            1 => self.distance,
            _ => self.parent,
        }
    }

    fn from_numbers(numbers: &[u64]) -> Option<Hop> {
        match numbers {
            [at, distance, parent] if (*distance == u64::MAX) == (*parent == u64::MAX) => {
                Some(Hop {
                    at: *at,
                    distance: *distance,
                    parent: *parent,
                })
            }
            _ => None,
        }
    }

    fn push_text(&self, alloc: Global, into: &mut Vec<u8>) -> Result<(), OutOfMemory> {
        push_pair(alloc, into, self.distance, self.parent)
    }

    ghost same = { hop_same };

    ghost width = { hop_width };

    ghost tests = { hop_tests };
}

impl Datum for HopSum {
    ghost use Rattle.std.specs.Prelude.{[], ◌∷◌, ◌++◌, codes};
    ghost use Rattle.gr_min.specs.Told.{told as text};
    ghost use Rattle.gr_min.specs.Laws.HopNumbers.{sum_same, sum_tests, sum_width};

    ghost WIDTH = { 2 };

    ghost numbers_of = { λ s. s.distance ∷ s.parent ∷ [] };

    ghost text_of = { λ s. text s.distance ++ codes " " ++ text s.parent };

    const WIDTH: usize = 2;

    fn number_at(&self, i: usize) -> u64 {
        match i {
            0 => self.distance,
            _ => self.parent,
        }
    }

    fn from_numbers(numbers: &[u64]) -> Option<HopSum> {
        match numbers {
            [distance, parent] if (*distance == u64::MAX) == (*parent == u64::MAX) => {
                Some(HopSum {
                    distance: *distance,
                    parent: *parent,
                })
            }
            _ => None,
        }
    }

    fn push_text(&self, alloc: Global, into: &mut Vec<u8>) -> Result<(), OutOfMemory> {
        push_pair(alloc, into, self.distance, self.parent)
    }

    ghost same = { sum_same };

    ghost width = { sum_width };

    ghost tests = { sum_tests };
}

// Appends two numbers that may be infinite, or nothing.
fn push_pair(alloc: Global, into: &mut Vec<u8>, first: u64, second: u64) -> Result<(), OutOfMemory>
    ensures ok { OnOk result (into.new.items ≡ into.old.items ++ (told first ++ codes " " ++ told second)) }
    ensures err { OnErr result (into.new.items ≡ into.old.items) }
{
    let before = into.len();
    match push_words(alloc, into, first, second) {
        Ok(()) => Ok(()),
        Err(fault) => {
            into.truncate(before);
            Err(fault)
        }
    }
}

fn push_words(alloc: Global, into: &mut Vec<u8>, first: u64, second: u64) -> Result<(), OutOfMemory>
    ensures ok { OnOk result (into.new.items ≡ into.old.items ++ (told first ++ codes " " ++ told second)) }
    ensures err { OnErr result (take (length into.old.items) into.new.items ≡ into.old.items) }
{
    push_told(alloc, into, first)?;
    into.push(b' ')?;
    push_told(alloc, into, second)
}
