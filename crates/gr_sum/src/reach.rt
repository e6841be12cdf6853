ghost use Rattle.std.specs.Prelude.{◌≡◌};
ghost use Rattle.gr_sum.specs.Seeds.{seed_bits as bits_of};

use crate::Amount;
use gr_base::Items;
use gr_program::VertexProgram;

/// Which of up to 64 seeds reach a vertex: bit `i` of its value is set where a path leads from seed `i` to it. Seeds
/// past the first 64 are not looked at.
#[derive(Drop)]
pub struct Reach {
    pub seeds: Items<u32>,
}

impl VertexProgram for Reach {
    ghost use Rattle.std.specs.Prelude.{true, false, refl};
    ghost use Rattle.gr_sum.specs.Reach.{reach};
    ghost use Rattle.gr_sum.specs.Laws.ReachLaws.{reach_laws};

    type Value = Amount;

    type Acc = Amount;

    ghost FORGETFUL = { false };

    ghost program_of = { λ p. reach p.seeds };

    const FORGETFUL: bool = false;

    fn start(&self, v: u32, _indeg: u32, _outdeg: u32) -> Amount {
        Amount(seed_bits(self.seeds.as_slice(), v))
    }

    fn unit(&self) -> Amount {
        Amount(0)
    }

    fn along(&self, value: Amount, _weight: u32, _outdeg: u32) -> Amount {
        value
    }

    fn join(&self, a: Amount, b: Amount) -> Amount {
        Amount(a.0 | b.0)
    }

    fn apply(&self, _v: u32, old: Amount, acc: Amount) -> Amount {
        Amount(old.0 | acc.0)
    }

    fn wakes(&self, old: Amount, new: Amount) -> bool {
        old != new
    }

    ghost laws = { λ p. reach_laws p.seeds };

    ghost marked = { λ p. refl };
}

// The word whose bit i is set where seed i is the vertex, over the first 64 seeds.
fn seed_bits(seeds: &[u32], v: u32) -> u64
    ensures { result ≡ bits_of seeds.now v }
{
    let mut bits = 0u64;
    for i in 0..seeds.len().min(64) {
        if seeds[i] == v {
            bits += 1 << i;
        }
    }
    bits
}
