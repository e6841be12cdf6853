use crate::Datum;

/// A program over the vertices of a graph, by gather, apply and scatter.
///
/// In a round each active vertex joins one contribution for each edge into it, applies the sum to its value, and
/// wakes the targets of its edges where the change asks for it. What the methods compute is said once, by the plain
/// functions of `program_of`, which keep the laws of a program.
pub trait VertexProgram: Drop {
    ghost use Rattle.std.specs.Prelude.{◌≡◌, ℕ, ◌<◌, ◌≤◌, Bool, IsTrue};
    ghost use Rattle.gr_program.specs.Program.{Program};
    ghost use Rattle.gr_program.specs.ProgramLaws.{ProgramLaws};

    /// The value of a vertex.
    type Value: Datum;

    /// The sum of contributions.
    type Acc: Datum;

    ghost FORGETFUL: { Bool };

    ghost program_of: { Self → Program Self.Value Self.Acc };

    /// Whether `apply` ignores the old value, and a change that wakes nobody leaves every contribution as it was.
    const FORGETFUL: bool;

    /// The value of a vertex before the first round.
    fn start(&self, v: u32, indeg: u32, outdeg: u32) -> Self::Value
        ensures value { result ≡ (program_of self.now).start v indeg outdeg }
        ensures kept { IsTrue ((program_of self.now).is_value result) };

    /// The sum of no contribution.
    fn unit(&self) -> Self::Acc
        ensures value { result ≡ (program_of self.now).unit }
        ensures kept { IsTrue ((program_of self.now).is_acc result) };

    /// What an edge brings to its target, by the value and the out-degree of its source.
    fn along(&self, value: Self::Value, weight: u32, outdeg: u32) -> Self::Acc
        requires kept { IsTrue ((program_of self.now).is_value value) }
        requires out { 0 < outdeg }
        ensures value { result ≡ (program_of self.now).along value weight outdeg }
        ensures kept { IsTrue ((program_of self.now).is_acc result) };

    /// The sum of two sums.
    fn join(&self, a: Self::Acc, b: Self::Acc) -> Self::Acc
        requires a { IsTrue ((program_of self.now).is_acc a) }
        requires b { IsTrue ((program_of self.now).is_acc b) }
        ensures value { result ≡ (program_of self.now).join a b }
        ensures kept { IsTrue ((program_of self.now).is_acc result) };

    /// The new value of a vertex, from its old one and the sum that it gathered.
    fn apply(&self, v: u32, old: Self::Value, acc: Self::Acc) -> Self::Value
        requires old { IsTrue ((program_of self.now).is_value old) }
        requires acc { IsTrue ((program_of self.now).is_acc acc) }
        ensures value { result ≡ (program_of self.now).apply v old acc }
        ensures kept { IsTrue ((program_of self.now).is_value result) };

    /// Whether a change wakes the targets of the vertex's edges.
    fn wakes(&self, old: Self::Value, new: Self::Value) -> bool
        requires old { IsTrue ((program_of self.now).is_value old) }
        requires new { IsTrue ((program_of self.now).is_value new) }
        ensures { result ≡ (program_of self.now).wakes old new };

    ghost laws: { (p : Self) → ProgramLaws (program_of p) };

    ghost marked: { (p : Self) → (program_of p).forgetful ≡ FORGETFUL };
}

/// A vertex and its value.
#[derive(Clone, Copy, Debug, PartialEq, Eq)]
pub struct ValueOf<V> {
    pub vertex: u32,
    pub value: V,
}
