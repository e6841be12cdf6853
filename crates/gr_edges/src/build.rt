ghost use Rattle.std.specs.Prelude.{◌≡◌, ◌+◌, ◌<◌, ◌^◌, true, [], length, map, IfOk};
ghost use Rattle.std.specs.List.{All};
ghost use Rattle.gr_base.specs.Rising.{RisesBy, has};
ghost use Rattle.gr_edges.specs.Vertices.{id_of, ids, vertex_of, with_source, with_target, HasEnds};

use crate::graph::{Graph, VertexInfo};
use crate::positions::{position_hints, position_of};
use crate::tally::{room_for, tallied_graph};
use gr_base::{Edge, Items, OutOfMemory};
use std::alloc::Global;

impl Graph {
    /// The graph of these edges and the vertices of these ids, with the degrees counted.
    ///
    /// The cost is linear in the ids, and in the edges with a logarithm of the ids.
    pub fn from_edges(alloc: Global, edges: Items<Edge>, ids: &[u32]) -> Result<Graph, OutOfMemory>
        requires rise { RisesBy (λ n. n) ids.now }
        requires ends { All (HasEnds ids.now) edges }
        requires few { length edges < 2 ^ 32 }
        ensures edges { IfOk result (λ graph. graph.edges ≡ edges) }
        ensures vertices { IfOk result (λ graph. graph.vertices ≡ map (vertex_of edges) ids.now) }
    {
        let room = room_for(ids);
        if room / 4 <= ids.len() {
            tallied_graph(alloc, edges, ids, room)
        } else {
            hinted_graph(alloc, edges, ids)
        }
    }
}

// The graph of these edges and ids, with the degrees counted at the positions of the ids.
fn hinted_graph(alloc: Global, edges: Items<Edge>, ids: &[u32]) -> Result<Graph, OutOfMemory>
    requires rise { RisesBy (λ n. n) ids.now }
    requires ends { All (HasEnds ids.now) edges }
    requires few { length edges < 2 ^ 32 }
    ensures edges { IfOk result (λ graph. graph.edges ≡ edges) }
    ensures vertices { IfOk result (λ graph. graph.vertices ≡ map (vertex_of edges) ids.now) }
{
    let mut vertices = Vec::new(alloc);
    for id in ids {
        vertices.push(unconnected(*id))?;
    }
    let hints = position_hints(alloc, vertices.as_slice())?;
    Ok(with_degrees(edges, vertices, hints.as_slice()))
}

// The vertex of an id, with no edge.
fn unconnected(id: u32) -> VertexInfo
    ensures vertex { result ≡ vertex_of [] id }
    ensures small { result.id < 2 ^ 32 }
{
    VertexInfo {
        id,
        indeg: 0,
        outdeg: 0,
    }
}

// The graph of these edges and of vertices that have none yet, by any hints.
fn with_degrees(edges: Items<Edge>, mut vertices: Vec<VertexInfo>, hints: &[u32]) -> Graph
    requires rise { RisesBy id_of vertices.items }
    requires none { vertices.items ≡ map (vertex_of []) (ids vertices.items) }
    requires ends { All (HasEnds (ids vertices.items)) edges }
    requires small { All (λ v. v.id < 2 ^ 32) vertices.items }
    requires few { length edges < 2 ^ 32 }
    ensures edges { result.edges ≡ edges }
    ensures vertices { result.vertices ≡ map (vertex_of edges) (ids vertices.items) }
{
    count_degrees(vertices.as_mut_slice(), hints, edges.as_slice());
    Graph {
        edges,
        vertices: Items::from_vec(vertices),
    }
}

// Adds to the degrees of unconnected vertices those that the edges give them.
fn count_degrees(vertices: &mut [VertexInfo], hints: &[u32], edges: &[Edge])
    requires rise { RisesBy id_of vertices.old }
    requires none { vertices.old ≡ map (vertex_of []) (ids vertices.old) }
    requires ends { All (HasEnds (ids vertices.old)) edges.now }
    requires few { length edges.now < 2 ^ 32 }
    ensures { vertices.new ≡ map (vertex_of edges.now) (ids vertices.old) }
{
    for edge in edges {
        count_source(vertices, hints, edge.src);
        count_target(vertices, hints, edge.dst);
    }
}

// One more edge begins at a vertex.
fn count_source(vertices: &mut [VertexInfo], hints: &[u32], id: u32)
    requires rise { RisesBy id_of vertices.old }
    requires stands { has (ids vertices.old) id ≡ true }
    requires room { All (λ v. v.outdeg + 1 < 2 ^ 32) vertices.old }
    ensures { vertices.new ≡ map (with_source id) vertices.old }
{
    let position = position_of(vertices, hints, id);
    let vertex = vertices[position];
    vertices[position] = VertexInfo {
        outdeg: vertex.outdeg + 1,
        id: vertex.id,
        indeg: vertex.indeg,
    };
}

// One more edge ends at a vertex.
fn count_target(vertices: &mut [VertexInfo], hints: &[u32], id: u32)
    requires rise { RisesBy id_of vertices.old }
    requires stands { has (ids vertices.old) id ≡ true }
    requires room { All (λ v. v.indeg + 1 < 2 ^ 32) vertices.old }
    ensures { vertices.new ≡ map (with_target id) vertices.old }
{
    let position = position_of(vertices, hints, id);
    let vertex = vertices[position];
    vertices[position] = VertexInfo {
        indeg: vertex.indeg + 1,
        id: vertex.id,
        outdeg: vertex.outdeg,
    };
}
