ghost use Rattle.std.specs.Prelude.{◌≤◌, length, map, IfOk};
ghost use Rattle.gr_edges.specs.Vertices.{ids};
ghost use Rattle.gr_uncut.specs.Index.{AreArcs, ArePositions};

use crate::index::Arc;
use gr_base::{Items, OutOfMemory};
use gr_edges::{Graph, position_hints, position_of};
use std::alloc::Global;

/// The ends of each edge as positions among the vertices, and each edge as its target sees it, in the order of the
/// edges.
#[derive(Drop)]
pub struct Ends {
    pub sources: Items<u32>,
    pub targets: Items<u32>,
    pub arcs: Items<Arc>,
}

/// Finds the ends of each edge.
///
/// In time linear in the edges and the vertices. An end takes a logarithm in the vertices only if its hint is not
/// right.
pub fn ends_of(alloc: Global, graph: &Graph) -> Result<Ends, OutOfMemory>
    requires { length graph.now.vertices ≤ 1048576 }
    ensures sources { IfOk result (λ ends.
        ArePositions (ids graph.now.vertices) ends.sources (map (λ e. e.src) graph.now.edges)) }
    ensures targets { IfOk result (λ ends.
        ArePositions (ids graph.now.vertices) ends.targets (map (λ e. e.dst) graph.now.edges)) }
    ensures arcs { IfOk result (λ ends. AreArcs (ids graph.now.vertices) graph.now.edges ends.arcs graph.now.edges) }
{
    let _count = graph.vertex_count();
    let vertices = graph.vertices.as_slice();
    let hints = position_hints(alloc, vertices)?;
    let hints = hints.as_slice();
    let mut sources = Items::new(alloc);
    let mut targets = Items::new(alloc);
    let mut arcs = Items::new(alloc);
    for edge in graph.edges.as_slice() {
        let source = position_of(vertices, hints, edge.src);
        let target = position_of(vertices, hints, edge.dst);
        sources.push(source as u32)?;
        targets.push(target as u32)?;
        arcs.push(Arc {
            source: source as u32,
            weight: edge.weight,
            outdegree: vertices[source].outdeg,
        })?;
    }
    Ok(Ends {
        sources,
        targets,
        arcs,
    })
}
