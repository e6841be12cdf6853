use crate::Amount;
use gr_program::VertexProgram;

/// The vertices of the k-core, by peeling: a vertex keeps the value 1 while at least `k` edges come from vertices
/// that have it, and has 0 from then on. It is meant for undirected graphs; on others it peels by the in-degree.
#[derive(Drop)]
pub struct Core {
    pub k: u32,
}

impl VertexProgram for Core {
    ghost use Rattle.std.specs.Prelude.{true, false, refl};
    ghost use Rattle.gr_sum.specs.KCore.{k_core};
    ghost use Rattle.gr_sum.specs.Laws.KCoreLaws.{k_core_laws};

    type Value = Amount;

    type Acc = Amount;

    ghost FORGETFUL = { false };

    ghost program_of = { λ p. k_core p.k };

    const FORGETFUL: bool = false;

    fn start(&self, _v: u32, _indeg: u32, _outdeg: u32) -> Amount {
        Amount(1)
    }

    fn unit(&self) -> Amount {
        Amount(0)
    }

    fn along(&self, value: Amount, _weight: u32, _outdeg: u32) -> Amount {
        value
    }

    fn join(&self, a: Amount, b: Amount) -> Amount {
        Amount(a.0.saturating_add(b.0))
    }

    fn apply(&self, _v: u32, old: Amount, acc: Amount) -> Amount {
        let stays = (old.0 == 1) & (acc.0 >= u64::from(self.k));
        Amount(u64::from(stays))
    }

    fn wakes(&self, old: Amount, new: Amount) -> bool {
        old != new
    }

    ghost laws = { λ p. k_core_laws p.k };

    ghost marked = { λ p. refl };
}
