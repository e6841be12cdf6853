use crate::Distance;
use gr_program::VertexProgram;

/// Shortest paths from one source: the least sum of weights on a path from it to each vertex.
#[derive(Drop)]
pub struct Shortest {
    pub source: u32,
}

impl VertexProgram for Shortest {
    ghost use Rattle.std.specs.Prelude.{false, refl};
    ghost use Rattle.gr_min.specs.Shortest.{shortest};
    ghost use Rattle.gr_min.specs.Laws.ShortestLaws.{shortest_laws};

    type Value = Distance;

    type Acc = Distance;

    ghost FORGETFUL = { false };

    ghost program_of = { λ p. shortest p.source };

    const FORGETFUL: bool = false;

    fn start(&self, v: u32, _indeg: u32, _outdeg: u32) -> Distance {
        Distance(if v == self.source { 0 } else { u64::MAX })
    }

    fn unit(&self) -> Distance {
        Distance(u64::MAX)
    }

    fn along(&self, value: Distance, weight: u32, _outdeg: u32) -> Distance {
        Distance(value.0.saturating_add(u64::from(weight)))
    }

    fn join(&self, a: Distance, b: Distance) -> Distance {
        Distance(a.0.min(b.0))
    }

    fn apply(&self, _v: u32, old: Distance, acc: Distance) -> Distance {
        Distance(old.0.min(acc.0))
    }

    fn wakes(&self, old: Distance, new: Distance) -> bool {
        old != new
    }

    ghost laws = { λ p. shortest_laws p.source };

    ghost marked = { λ p. refl };
}
