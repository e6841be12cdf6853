use gr_program::VertexProgram;
use gr_sum::Amount;

/// Components by least labels: the least id from which a path leads to the vertex, itself among them. On an undirected
/// graph that is the least id of its component.
#[derive(Drop)]
pub struct Labels;

impl VertexProgram for Labels {
    ghost use Rattle.std.specs.Prelude.{false, refl};
    ghost use Rattle.gr_min.specs.Labels.{labels};
    ghost use Rattle.gr_min.specs.Laws.LabelsLaws.{labels_laws};

    type Value = Amount;

    type Acc = Amount;

    ghost FORGETFUL = { false };

    ghost program_of = { λ _. labels };

    const FORGETFUL: bool = false;

    fn start(&self, v: u32, _indeg: u32, _outdeg: u32) -> Amount {
        Amount(u64::from(v))
    }

    fn unit(&self) -> Amount {
        Amount(u64::MAX)
    }

    fn along(&self, value: Amount, _weight: u32, _outdeg: u32) -> Amount {
        value
    }

    fn join(&self, a: Amount, b: Amount) -> Amount {
        Amount(a.0.min(b.0))
    }

    fn apply(&self, _v: u32, old: Amount, acc: Amount) -> Amount {
        Amount(old.0.min(acc.0))
    }

    fn wakes(&self, old: Amount, new: Amount) -> bool {
        old != new
    }

    ghost laws = { λ _. labels_laws };

    ghost marked = { λ p. refl };
}
