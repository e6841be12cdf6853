ghost use Rattle.std.specs.Prelude.{◌≡◌, ◌<◌, ◌≤◌, ℕ, length, map, slice_index_or, replicate, [], true, List, IfOk};
ghost use Rattle.std.specs.List.{All};
ghost use Rattle.gr_base.specs.Rising.{RisesBy, has};
ghost use Rattle.gr_base.specs.Degrees.{indegree};
ghost use Rattle.gr_edges.specs.Vertices.{id_of, ids, HasDegrees};
ghost use Rattle.gr_base.specs.declared.records.Edge as edge;
ghost use Rattle.gr_cut.specs.Cut.{cut_of, home, place_at_load};

use crate::place::{edge_place, is_high};
use gr_base::{Edge, Items, OutOfMemory};
use gr_edges::{Graph, VertexInfo, position_hints, position_of};
use std::alloc::Global;
use std::marker::Model;

/// The edges at each place. Contracts see one rising list of edge numbers for each place.
#[derive(Debug, Drop)]
pub struct PlaceEdges {
    rows: Vec<Items<u32>>,
}

impl Model for PlaceEdges {
    ghost use Rattle.std.specs.Prelude.{List, ℕ};

    ghost Value = { List (List ℕ) };

    ghost view = { λ s. s.rows.items };
}

impl PlaceEdges {
    /// The numbers of the edges at a place, rising.
    pub fn at(&self, p: u8) -> &[u32]
        requires { p < length self.now }
        ensures { result.now ≡ slice_index_or self.now p [] }
    {
        self.rows[usize::from(p)].as_slice()
    }
}

/// Where each edge of a graph stands at load, when the home of each vertex is its master.
///
/// In time linear in the edges and the vertices. The in-degree of a target takes a logarithm in the vertices only if
/// its hint is not right.
pub fn cut(alloc: Global, graph: &Graph, places: u8, theta: u32) -> Result<PlaceEdges, OutOfMemory>
    requires some { 1 ≤ places }
    requires most { places ≤ 64 }
    requires edges { length graph.now.edges ≤ 4194304 }
    requires vertices { length graph.now.vertices ≤ 1048576 }
    ensures { IfOk result (λ rows. rows ≡ cut_of places theta graph.now.edges) }
{
    let mut rows = no_edges(alloc, places)?;
    let hints = position_hints(alloc, graph.vertices.as_slice())?;
    let edges = graph.edges.as_slice();
    for i in 0..edges.len() {
        let p = place_of(graph, hints.as_slice(), places, theta, edges[i]);
        let row = &mut rows[usize::from(p)];
        row.push(i as u32)?;
    }
    Ok(PlaceEdges { rows })
}

fn no_edges(alloc: Global, places: u8) -> Result<Vec<Items<u32>>, OutOfMemory>
    ensures { IfOk result (λ rows. rows.items ≡ replicate places []) }
{
    let mut rows = Vec::new(alloc);
    for p in 0..places {
        rows.push(Items::new(alloc))?;
    }
    Ok(rows)
}

// The place of an edge of the graph, by any hints of its vertices.
fn place_of(graph: &Graph, hints: &[u32], places: u8, theta: u32, edge: Edge) -> u8
    requires some { 1 ≤ places }
    requires target { has (ids graph.now.vertices) edge.dst ≡ true }
    ensures place { result ≡ place_at_load places theta graph.now.edges edge }
    ensures within { result < places }
{
    let _count = graph.vertex_count();
    let indeg = in_degree(graph.vertices.as_slice(), hints, edge.dst);
    let places = u32::from(places);
    let source = (edge.src % places) as u8;
    let target = (edge.dst % places) as u8;
    edge_place(source, target, is_high(indeg, theta))
}

// The in-degree of a vertex, by any hints.
fn in_degree(vertices: &[VertexInfo], hints: &[u32], v: u32) -> u32
    requires rise { RisesBy id_of vertices.now }
    requires stands { has (ids vertices.now) v ≡ true }
    ensures { (es : List edge.Edge) → All (HasDegrees es) vertices.now → result ≡ indegree es v }
{
    let at = position_of(vertices, hints, v);
    vertices[at].indeg
}
