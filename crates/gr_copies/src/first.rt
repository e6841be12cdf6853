ghost use Rattle.std.specs.Prelude.{◌≡◌, ℕ, ◌<◌, ◌≤◌, ◌==◌, ◌||◌, ◌+◌, true, [], ◌∷◌, length, map, min, List, IfOk};
ghost use Rattle.std.specs.List.{All, filter};
ghost use Rattle.gr_base.specs.declared.records.Edge as edge;
ghost use Rattle.gr_base.specs.Rising.{RisesBy, has};
ghost use Rattle.gr_base.specs.Places.{IsPlaces, below, ring};
ghost use Rattle.gr_edges.specs.Vertices.{id_of, ids, HasEnds};
ghost use Rattle.gr_cut.specs.Cut.{cut_of, home};
ghost use Rattle.gr_copies.specs.Holders.{first_directory, further};
ghost use Rattle.gr_copies.specs.Ends.{is_end, AreEnds, IsMarked};

use crate::further::next_places;
use gr_base::{Directory, Edge, Items, OutOfMemory, PlaceSet};
use gr_cut::PlaceEdges;
use gr_edges::{Graph, VertexInfo, position_hints, position_of};
use std::alloc::Global;

/// Where the copies of each vertex stand at load, rising by vertex: at its home, at the places with an edge of it,
/// and at the next places in ring order after its home until the copies bear the losses.
///
/// In time linear in the edges, the vertices and the places. An end of an edge takes a logarithm in the vertices only
/// if its hint is not right.
pub fn first_holders(
    alloc: Global,
    graph: &Graph,
    cut: &PlaceEdges,
    places: u8,
    losses: u8,
) -> Result<Items<Directory>, OutOfMemory>
    requires some { 1 ≤ places }
    requires most { places ≤ 64 }
    requires cut { (theta : ℕ) × (cut.now ≡ cut_of places theta graph.now.edges) }
    ensures { (theta : ℕ) → cut.now ≡ cut_of places theta graph.now.edges
        → IfOk result (λ dirs. dirs ≡ first_directory places theta losses graph.now.edges (ids graph.now.vertices)) }
{
    let _count = graph.vertex_count();
    let vertices = graph.vertices.as_slice();
    let edges = graph.edges.as_slice();
    let hints = position_hints(alloc, vertices)?;
    let mut sets = homes(alloc, vertices, places)?;
    for p in 0..places {
        mark_ends(
            sets.as_mut_slice(),
            vertices,
            hints.as_slice(),
            edges,
            cut.at(p),
            p,
        );
    }
    directory(alloc, vertices, sets.as_slice(), places, losses)
}

// For each vertex the set of its home alone.
fn homes(alloc: Global, vertices: &[VertexInfo], places: u8) -> Result<Vec<PlaceSet>, OutOfMemory>
    requires some { 1 ≤ places }
    requires most { places ≤ 64 }
    ensures { IfOk result (λ sets. sets.items ≡ map (λ v. home places v.id ∷ []) vertices.now) }
{
    let mut sets = Vec::new(alloc);
    for vertex in vertices {
        sets.push(PlaceSet::none().with(home_of(vertex.id, places)))?;
    }
    Ok(sets)
}

// The master of a vertex at load.
fn home_of(v: u32, places: u8) -> u8
    requires { 1 ≤ places }
    ensures home { result ≡ home places v }
    ensures within { result < places }
{
    (v % u32::from(places)) as u8
}

// Adds a place to the sets of the ends of some edges, by any hints of the vertices.
fn mark_ends(
    sets: &mut [PlaceSet],
    vertices: &[VertexInfo],
    hints: &[u32],
    edges: &[Edge],
    numbers: &[u32],
    p: u8,
)
    requires rise { RisesBy id_of vertices.now }
    requires ends { All (HasEnds (ids vertices.now)) edges.now }
    requires numbers { All (λ n. n < length edges.now) numbers.now }
    requires place { p < 64 }
    requires count { length sets.old ≡ length vertices.now }
    ensures { IsMarked (ids vertices.now) p (is_end edges.now numbers.now) sets.old sets.new }
{
    for number in numbers {
        let edge = edges[*number as usize];
        mark(sets, vertices, hints, edge.src, p);
        mark(sets, vertices, hints, edge.dst, p);
    }
}

// Adds a place to the set of a vertex, by any hints.
fn mark(sets: &mut [PlaceSet], vertices: &[VertexInfo], hints: &[u32], v: u32, p: u8)
    requires rise { RisesBy id_of vertices.now }
    requires stands { has (ids vertices.now) v ≡ true }
    requires place { p < 64 }
    requires count { length sets.old ≡ length vertices.now }
    ensures { IsMarked (ids vertices.now) p (λ w. v == w) sets.old sets.new }
{
    let at = position_of(vertices, hints, v);
    sets[at] = sets[at].with(p);
}

// The directory of the vertices whose copies are needed at these places.
fn directory(
    alloc: Global,
    vertices: &[VertexInfo],
    sets: &[PlaceSet],
    places: u8,
    losses: u8,
) -> Result<Items<Directory>, OutOfMemory>
    requires some { 1 ≤ places }
    requires most { places ≤ 64 }
    requires count { length sets.now ≡ length vertices.now }
    ensures { (theta : ℕ) → (es : List edge.Edge)
        → AreEnds places places es (cut_of places theta es) (ids vertices.now) sets.now
        → IfOk result (λ dirs. dirs ≡ first_directory places theta losses es (ids vertices.now)) }
{
    let mut directory = Items::new(alloc);
    for k in 0..vertices.len() {
        let vertex = vertices[k].id;
        let master = home_of(vertex, places);
        let holders = holders_of(sets[k], master, places, losses);
        directory.push(Directory {
            vertex,
            master,
            holders,
        })?;
    }
    Ok(directory)
}

// The holders of a vertex with its home and the places that need it: with the next places in ring order after its
// home, until there are as many as bear the losses.
fn holders_of(needed: PlaceSet, home: u8, places: u8, losses: u8) -> PlaceSet
    requires home { home < 64 }
    requires most { places ≤ 64 }
    ensures holders { result ≡ filter (λ p.
        has needed p || has (further (min (losses + 1) places) needed (ring home (below places))) p) (below 64) }
    ensures needed { IsPlaces needed }
{
    let _known = needed.has(0);
    let copies = (u32::from(losses) + 1).min(u32::from(places));
    let missing = copies.saturating_sub(needed.count());
    let candidates = PlaceSet::all(places).difference(needed);
    next_places(needed, candidates, home, missing)
}
