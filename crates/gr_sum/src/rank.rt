use crate::Amount;
use gr_program::VertexProgram;

/// Rank in millionths: each vertex hands its rank on in equal shares, and its new rank is 150000 and 0.85 times what
/// it got, rounded down. A vertex with no edge into it has rank 150000 from the first round on.
#[derive(Drop)]
pub struct Rank;

impl VertexProgram for Rank {
    ghost use Rattle.std.specs.Prelude.{true, false, refl};
    ghost use Rattle.gr_sum.specs.Rank.{rank};
    ghost use Rattle.gr_sum.specs.Laws.RankLaws.{rank_laws};

    type Value = Amount;

    type Acc = Amount;

    ghost FORGETFUL = { true };

    ghost program_of = { λ p. rank };

    const FORGETFUL: bool = true;

    fn start(&self, _v: u32, _indeg: u32, _outdeg: u32) -> Amount {
        Amount(1000000)
    }

    fn unit(&self) -> Amount {
        Amount(0)
    }

    fn along(&self, value: Amount, _weight: u32, outdeg: u32) -> Amount {
        Amount(value.0 / u64::from(outdeg))
    }

    fn join(&self, a: Amount, b: Amount) -> Amount {
        Amount(a.0.saturating_add(b.0))
    }

    fn apply(&self, _v: u32, _old: Amount, acc: Amount) -> Amount {
        let kept = 150000 + 850000 * u128::from(acc.0) / 1000000;
        Amount(u64::try_from(kept).unwrap_or(u64::MAX))
    }

    fn wakes(&self, old: Amount, new: Amount) -> bool {
        old != new
    }

    ghost laws = { λ p. rank_laws };

    ghost marked = { λ p. refl };
}
