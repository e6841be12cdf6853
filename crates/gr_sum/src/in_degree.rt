use crate::Amount;
use gr_program::VertexProgram;

/// The number of edges into a vertex.
#[derive(Drop)]
pub struct InDegree;

impl VertexProgram for InDegree {
    ghost use Rattle.std.specs.Prelude.{true, false, refl};
    ghost use Rattle.gr_sum.specs.InDegree.{in_degree};
    ghost use Rattle.gr_sum.specs.Laws.InDegreeLaws.{in_degree_laws};

    type Value = Amount;

    type Acc = Amount;

    ghost FORGETFUL = { true };

    ghost program_of = { λ p. in_degree };

    const FORGETFUL: bool = true;

    fn start(&self, _v: u32, _indeg: u32, _outdeg: u32) -> Amount {
        Amount(0)
    }

    fn unit(&self) -> Amount {
        Amount(0)
    }

    fn along(&self, _value: Amount, _weight: u32, _outdeg: u32) -> Amount {
        Amount(1)
    }

    fn join(&self, a: Amount, b: Amount) -> Amount {
        Amount(a.0.saturating_add(b.0))
    }

    fn apply(&self, _v: u32, _old: Amount, acc: Amount) -> Amount {
        acc
    }

    fn wakes(&self, _old: Amount, _new: Amount) -> bool {
        false
    }

    ghost laws = { λ p. in_degree_laws };

    ghost marked = { λ p. refl };
}
