ghost use Rattle.std.specs.Prelude.{◌≡◌, ◌==◌, ℕ, ◌<◌, ◌^◌, length, map, slice_index, IfOk, if◌then◌else◌};
ghost use Rattle.std.specs.List.{All, count_by};
ghost use Rattle.gr_base.specs.Rising.{RisesBy};
ghost use Rattle.gr_edges.specs.Vertices.{vertex_of, HasEnds};

use crate::graph::{Graph, VertexInfo};
use gr_base::{Edge, Items, OutOfMemory};
use std::alloc::Global;

/// The graph of these edges and ids, with the degrees counted by id, for ids that are near to their number.
pub fn tallied_graph(
    alloc: Global,
    edges: Items<Edge>,
    ids: &[u32],
    room: usize,
) -> Result<Graph, OutOfMemory>
    requires rise { RisesBy (λ n. n) ids.now }
    requires within { All (λ n. n < room) ids.now }
    requires ends { All (HasEnds ids.now) edges }
    requires few { length edges < 2 ^ 32 }
    ensures edges { IfOk result (λ graph. graph.edges ≡ edges) }
    ensures vertices { IfOk result (λ graph. graph.vertices ≡ map (vertex_of edges) ids.now) }
{
    let vertices = tallied_vertices(alloc, edges.as_slice(), ids, room)?;
    Ok(Graph {
        edges,
        vertices: Items::from_vec(vertices),
    })
}

/// One more than the greatest id.
pub fn room_for(ids: &[u32]) -> usize
    requires rise { RisesBy (λ n. n) ids.now }
    ensures { All (λ n. n < result) ids.now }
{
    match ids {
        [.., last] => *last as usize + 1,
        _ => 0,
    }
}

// The vertices of these ids, with the degrees that the edges give them.
fn tallied_vertices(
    alloc: Global,
    edges: &[Edge],
    ids: &[u32],
    room: usize,
) -> Result<Vec<VertexInfo>, OutOfMemory>
    requires within { All (λ n. n < room) ids.now }
    requires ends { All (HasEnds ids.now) edges.now }
    requires few { length edges.now < 2 ^ 32 }
    ensures vertices { IfOk result (λ vertices. vertices.items ≡ map (vertex_of edges.now) ids.now) }
    ensures small { IfOk result (λ vertices. All (λ v. v.id < 2 ^ 32) vertices.items) }
{
    let outs = tally(alloc, edges, room, true)?;
    let ins = tally(alloc, edges, room, false)?;
    let mut vertices = Vec::new(alloc);
    for id in ids {
        let at = *id as usize;
        vertices.push(VertexInfo {
            id: *id,
            indeg: ins[at],
            outdeg: outs[at],
        })?;
    }
    Ok(vertices)
}

// How many edges begin, or else end, at each number.
fn tally(
    alloc: Global,
    edges: &[Edge],
    room: usize,
    at_sources: bool,
) -> Result<Vec<u32>, OutOfMemory>
    requires within { All (λ e. (if at_sources then e.src else e.dst) < room) edges.now }
    requires few { length edges.now < 2 ^ 32 }
    ensures len { IfOk result (λ counts. length counts.items ≡ room) }
    ensures counts { IfOk result (λ counts. (v : ℕ) → v < room →
        slice_index counts.items v ≡ count_by (λ e. (if at_sources then e.src else e.dst) == v) edges.now) }
{
    let mut counts = vec![in alloc; 0; room]?;
    for edge in edges {
        let at = end_of(*edge, at_sources) as usize;
        counts[at] += 1;
    }
    Ok(counts)
}

fn end_of(edge: Edge, at_source: bool) -> u32
    ensures { result ≡ (if at_source then edge.src else edge.dst) }
{
    if at_source { edge.src } else { edge.dst }
}
