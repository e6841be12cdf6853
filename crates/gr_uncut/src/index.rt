ghost use Rattle.std.specs.Prelude.{◌≤◌, length, IfOk};
ghost use Rattle.gr_edges.specs.Vertices.{ids};

use crate::ends::ends_of;
use crate::rows::{Rows, rows_by};
use gr_base::OutOfMemory;
use gr_edges::Graph;
use std::alloc::Global;

/// An edge as its target sees it: the position of its source among the vertices, its weight, and the out-degree of
/// its source.
#[derive(Clone, Copy)]
pub struct Arc {
    pub source: u32,
    pub weight: u32,
    pub outdegree: u32,
}

/// The edges by the positions of their ends: the arcs into each vertex, and the targets of the edges out of it.
#[derive(Drop)]
pub struct Index {
    pub incoming: Rows<Arc>,
    pub outgoing: Rows<u32>,
}

impl Index {
    ghost use Rattle.gr_uncut.specs.Index.{IsIndex};

    /// Indexes a graph, in time linear in its edges and vertices but for the search of each end.
    pub fn new(alloc: Global, graph: &Graph) -> Result<Index, OutOfMemory>
        requires edges { length graph.now.edges ≤ 4194304 }
        requires vertices { length graph.now.vertices ≤ 1048576 }
        ensures { IfOk result (λ index. IsIndex graph.now.edges (ids graph.now.vertices) index) }
    {
        let ends = ends_of(alloc, graph)?;
        let sources = ends.sources.as_slice();
        let targets = ends.targets.as_slice();
        let count = graph.vertex_count();
        let incoming = rows_by(alloc, targets, ends.arcs.as_slice(), count)?;
        let outgoing = rows_by(alloc, sources, targets, count)?;
        Ok(Index { incoming, outgoing })
    }
}
