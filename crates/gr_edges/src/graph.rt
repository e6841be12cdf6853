ghost use Rattle.std.specs.Prelude.{◌≡◌, ◌<◌, ◌^◌, [], length};
ghost use Rattle.std.specs.List.{All};
ghost use Rattle.gr_base.specs.Rising.{RisesBy};
ghost use Rattle.gr_edges.specs.Vertices.{id_of, ids, HasDegrees, HasEnds};

use gr_base::{Edge, Items};
use std::alloc::Global;

/// A vertex, with how many edges end at it and how many begin there.
#[derive(Clone, Copy, Debug, PartialEq, Eq)]
pub struct VertexInfo {
    pub id: u32,
    pub indeg: u32,
    pub outdeg: u32,
}

/// A directed graph: its edges in their order, and its vertices by rising id.
///
/// The degrees are those of the edges, both ends of each edge are vertices, and ids are numbers of 32 bits.
#[derive(Debug, Drop)]
pub struct Graph {
    pub edges: Items<Edge>,
    pub vertices: Items<VertexInfo>,
    pub ghost rise: { RisesBy id_of vertices },
    pub ghost degrees: { All (HasDegrees edges) vertices },
    pub ghost ends: { All (HasEnds (ids vertices)) edges },
    pub ghost small: { All (λ v. v.id < 2 ^ 32) vertices },
}

impl Graph {
    /// The graph with no vertex. It takes no memory.
    pub fn empty(alloc: Global) -> Graph
        ensures edges { result.edges ≡ [] }
        ensures vertices { result.vertices ≡ [] }
    {
        Graph {
            edges: Items::new(alloc),
            vertices: Items::new(alloc),
        }
    }

    /// How many vertices there are, and what holds of every graph.
    pub fn vertex_count(&self) -> usize
        ensures count { result ≡ length self.now.vertices }
        ensures rise { RisesBy id_of self.now.vertices }
        ensures degrees { All (HasDegrees self.now.edges) self.now.vertices }
        ensures ends { All (HasEnds (ids self.now.vertices)) self.now.edges }
        ensures small { All (λ v. v.id < 2 ^ 32) self.now.vertices }
    {
        self.vertices.len()
    }
}
