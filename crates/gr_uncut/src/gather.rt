ghost use Rattle.std.specs.Prelude.{◌≡◌, ◌<◌, ◌+◌, ℕ, Bool, length, map, IsTrue, IfOk, if◌then◌else◌};
ghost use Rattle.std.specs.List.{All};
ghost use Rattle.gr_base.specs.Rising.{has};
ghost use Rattle.gr_edges.specs.Vertices.{ids};
ghost use Rattle.gr_program.specs.Program.{total};
ghost use Rattle.gr_uncut.specs.Index.{arcs_at};
ghost use Rattle.gr_uncut.specs.Round.{Reads, brought, applied};

use crate::index::{Arc, Index};
use gr_base::{Items, OutOfMemory};
use gr_edges::VertexInfo;
use gr_program::{Datum, VertexProgram};
use std::alloc::Global;

/// The sum of what the arcs into a vertex bring, in their order.
fn gathered<P: VertexProgram>(program: &P, values: &[P::Value], arcs: &[Arc]) -> P::Acc
    requires values { All (λ x. IsTrue ((P.program_of program.now).is_value x)) values.now }
    requires sources { All (λ a. a.source < length values.now) arcs.now }
    requires degrees { All (λ a. 0 < a.outdegree) arcs.now }
    ensures sum { (x : ℕ → P.Value) → Reads x values.now
        → result ≡ total (P.program_of program.now) (map (brought (P.program_of program.now) x) arcs.now) }
    ensures kept { IsTrue ((P.program_of program.now).is_acc result) }
{
    let mut sum = program.unit();
    for arc in arcs {
        let value = values[arc.source as usize];
        let part = program.along(value, arc.weight, arc.outdegree);
        sum = program.join(sum, part);
    }
    sum
}

/// The new value of each active vertex.
pub fn new_values<P: VertexProgram>(
    alloc: Global,
    vertices: &[VertexInfo],
    index: &Index,
    program: &P,
    values: &[P::Value],
    active: &[u32],
) -> Result<Items<P::Value>, OutOfMemory>
    requires values { All (λ x. IsTrue ((P.program_of program.now).is_value x)) values.now }
    requires long { length values.now ≡ length vertices.now }
    requires active { All (λ k. k < length vertices.now) active.now }
    requires rows { length index.now.incoming.starts ≡ length vertices.now + 1 }
    requires sources { (k : ℕ) → k < length vertices.now
        → All (λ a. a.source < length vertices.now) (arcs_at index.now k) }
    requires degrees { (k : ℕ) → k < length vertices.now → All (λ a. 0 < a.outdegree) (arcs_at index.now k) }
    ensures values { IfOk result (λ new. (x : ℕ → P.Value) → Reads x values.now
        → new ≡ map (applied (P.program_of program.now) (ids vertices.now) index.now x) active.now) }
    ensures kept { IfOk result (λ new. All (λ x. IsTrue ((P.program_of program.now).is_value x)) new) }
    ensures long { IfOk result (λ new. length new ≡ length active.now) }
{
    let mut new = Items::new(alloc);
    for position in active {
        let at = *position as usize;
        let sum = gathered(program, values, index.incoming.row(at));
        new.push(program.apply(vertices[at].id, values[at], sum))?;
    }
    Ok(new)
}

/// Puts each new value at its active position.
pub fn put_values<V: Datum>(values: &mut Items<V>, active: &[u32], new: &[V])
    requires active { All (λ k. k < length values.old) active.now }
    requires long { length new.now ≡ length active.now }
    ensures long { length values.new ≡ length values.old }
    ensures kept { (t : V → Bool) → All (λ x. IsTrue (t x)) values.old → All (λ x. IsTrue (t x)) new.now
        → All (λ x. IsTrue (t x)) values.new }
    ensures values { (x y : ℕ → V) → Reads x values.old → new.now ≡ map y active.now
        → Reads (λ k. if has active.now k then y k else x k) values.new }
{
    for i in 0..active.len() {
        values.set(active[i] as usize, new[i]);
    }
}
