ghost use Rattle.std.specs.Prelude.{◌≡◌};
ghost use Rattle.gr_min.specs.HopSum.{is_better as better_than, better as better_of};
ghost use Rattle.gr_min.specs.HopSum.{reached_by as offer_of, hop as hop_of};

use crate::{Hop, HopSum};
use gr_program::VertexProgram;

/// The fewest edges on a path from one source, with the least vertex that stands before the last of them.
#[derive(Drop)]
pub struct Hops {
    pub source: u32,
}

impl VertexProgram for Hops {
    ghost use Rattle.std.specs.Prelude.{false, refl};
    ghost use Rattle.gr_min.specs.Hops.{hops};
    ghost use Rattle.gr_min.specs.Laws.HopsLaws.{hops_laws};

    type Value = Hop;

    type Acc = HopSum;

    ghost FORGETFUL = { false };

    ghost program_of = { λ p. hops p.source };

    const FORGETFUL: bool = false;

    fn start(&self, v: u32, _indeg: u32, _outdeg: u32) -> Hop {
        let at = u64::from(v);
        if v == self.source {
            Hop {
                at,
                distance: 0,
                parent: at,
            }
        } else {
            Hop {
                at,
                distance: u64::MAX,
                parent: u64::MAX,
            }
        }
    }

    fn unit(&self) -> HopSum {
        HopSum {
            distance: u64::MAX,
            parent: u64::MAX,
        }
    }

    fn along(&self, value: Hop, _weight: u32, _outdeg: u32) -> HopSum {
        if value.distance < u64::MAX - 1 {
            HopSum {
                distance: value.distance + 1,
                parent: value.at,
            }
        } else {
            self.unit()
        }
    }

    fn join(&self, a: HopSum, b: HopSum) -> HopSum {
        better(a, b)
    }

    fn apply(&self, _v: u32, old: Hop, acc: HopSum) -> Hop {
        let best = better(reached_by(old), acc);
        Hop {
            at: old.at,
            distance: best.distance,
            parent: best.parent,
        }
    }

    fn wakes(&self, old: Hop, new: Hop) -> bool {
        old.distance != new.distance
    }

    ghost laws = { λ p. hops_laws p.source };

    ghost marked = { λ p. refl };
}

fn is_better(a: HopSum, b: HopSum) -> bool
    ensures { result ≡ better_than a b }
{
    (a.distance < b.distance) | ((a.distance == b.distance) & (a.parent < b.parent))
}

// The better of two offers.
fn better(a: HopSum, b: HopSum) -> HopSum
    ensures { result ≡ better_of a b }
{
    if is_better(b, a) { b } else { a }
}

fn reached_by(hop: Hop) -> HopSum
    ensures { result ≡ offer_of hop }
{
    HopSum {
        distance: hop.distance,
        parent: hop.parent,
    }
}
