ghost use Rattle.std.specs.Prelude.{◌≡◌, ◌<◌, ◌≤◌, ℕ, length, map, IsTrue, IfOk};
ghost use Rattle.std.specs.List.{All, range_with_len};
ghost use Rattle.gr_edges.specs.Vertices.{ids};
ghost use Rattle.gr_program.specs.Result.{values_after, shown};
ghost use Rattle.gr_program.specs.Rounds.{first_state, last_round};

use crate::index::Index;
use crate::round::round;
use gr_base::{Items, OutOfMemory};
use gr_edges::Graph;
use gr_program::{Datum, ValueOf, VertexProgram};
use std::alloc::Global;

/// The last round, and the values after it in rising vertex order.
#[derive(Debug, Drop)]
pub struct PlainEnd<V: Datum> {
    pub last: u32,
    pub values: Items<ValueOf<V>>,
}

/// Runs a program over a graph that is not cut, until no vertex is active or the limit of rounds is reached.
///
/// The index of the edges is built once. A round costs in proportion to the edges into its active vertices and out
/// of those whose change wakes.
///
/// # Errors
///
/// `OutOfMemory` where memory ran out.
pub fn plain_rounds<P: VertexProgram>(
    alloc: Global,
    graph: &Graph,
    program: &P,
    limit: u32,
) -> Result<PlainEnd<P::Value>, OutOfMemory>
    requires edges { length graph.now.edges ≤ 4194304 }
    requires vertices { length graph.now.vertices ≤ 1048576 }
    ensures last { IfOk result (λ end.
        end.last ≡ last_round (P.program_of program.now) graph.now.edges (ids graph.now.vertices) limit) }
    ensures values { IfOk result (λ end. end.values
        ≡ values_after (P.program_of program.now) graph.now.edges (ids graph.now.vertices) end.last) }
{
    let index = Index::new(alloc, graph)?;
    let mut values = first_values(alloc, graph, program)?;
    let mut active = positions(alloc, graph.vertex_count())?;
    let mut stamps = Items::filled(alloc, 0, graph.vertex_count())?;
    let mut last = 0;
    'rounds: while last < limit && !active.is_empty() {
        active = round(
            alloc,
            graph,
            &index,
            program,
            last,
            &mut values,
            active.as_slice(),
            &mut stamps,
        )?;
        last += 1;
    }
    let values = values_of(alloc, graph, values.as_slice())?;
    Ok(PlainEnd { last, values })
}

/// The values before the first round.
fn first_values<P: VertexProgram>(
    alloc: Global,
    graph: &Graph,
    program: &P,
) -> Result<Items<P::Value>, OutOfMemory>
    ensures first { IfOk result (λ first.
        first ≡ map (first_state (P.program_of program.now) graph.now.edges).value (ids graph.now.vertices)) }
    ensures kept { IfOk result (λ first. All (λ x. IsTrue ((P.program_of program.now).is_value x)) first) }
{
    let _count = graph.vertex_count();
    let mut first = Items::new(alloc);
    for vertex in graph.vertices.as_slice() {
        first.push(program.start(vertex.id, vertex.indeg, vertex.outdeg))?;
    }
    Ok(first)
}

/// Every position, rising.
fn positions(alloc: Global, count: usize) -> Result<Items<u32>, OutOfMemory>
    requires { count ≤ 1048576 }
    ensures { IfOk result (λ positions. positions ≡ range_with_len 0 count) }
{
    let mut positions = Items::new(alloc);
    for k in 0..count {
        positions.push(k as u32)?;
    }
    Ok(positions)
}

/// The values beside their vertices.
fn values_of<V: Datum>(
    alloc: Global,
    graph: &Graph,
    values: &[V],
) -> Result<Items<ValueOf<V>>, OutOfMemory>
    requires { length values.now ≡ length graph.now.vertices }
    ensures { IfOk result (λ list. (x : ℕ → V) → values.now ≡ map x (ids graph.now.vertices)
        → list ≡ shown x (ids graph.now.vertices)) }
{
    let vertices = graph.vertices.as_slice();
    let mut list = Items::new(alloc);
    for k in 0..vertices.len() {
        list.push(ValueOf {
            vertex: vertices[k].id,
            value: values[k],
        })?;
    }
    Ok(list)
}
