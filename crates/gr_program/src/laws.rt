//! What follows from the laws of a program and from the definition of its rounds, for every program.

ghost use Rattle.gr_program.specs.Laws.{JoinOfAPermutation, JoinOfParts, LastRoundIsLeast, InactiveMayBeRecomputed};

/// The join of a list from the unit is that of each permutation of it.
pub fn join_of_a_permutation<V, A>()
    ensures { JoinOfAPermutation V A }
{}

/// The join of a list from the unit is the join of the joins of its parts.
pub fn join_of_parts<V, A>()
    ensures { JoinOfParts V A }
{}

/// A run ends at the least round after which no vertex is active, or at its limit.
pub fn last_round_is_least<V, A>()
    ensures { LastRoundIsLeast V A }
{}

/// Under a forgetful program the value of a vertex that is not active is what `apply` gives it once more, whatever
/// old value it is given: so a value that nobody reads need not be kept.
pub fn inactive_may_be_recomputed<V, A>()
    ensures { InactiveMayBeRecomputed V A }
{}
