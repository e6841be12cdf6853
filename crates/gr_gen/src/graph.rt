ghost use Rattle.std.specs.Prelude.{◌≡◌, ◌<◌, map, IfOk};
ghost use Rattle.std.specs.List.{range_with_len};
ghost use Rattle.gr_edges.specs.Vertices.{vertex_of};
ghost use Rattle.gr_gen.specs.Generated.{edge_by, edges_of, target_count, vertex_count, vertices_below};

use crate::draws::Draws;
use gr_base::{Edge, Items, OutOfMemory};
use gr_edges::Graph;
use std::alloc::Global;

/// The graph of a seed, with `size` edges.
///
/// It has a vertex for every four edges, and one more. The ends are drawn, but every fourth edge ends among the first
/// eight vertices, so that a few vertices have many edges. The weights are 1 to 7 in turn. The cost is linear in the
/// size, with a logarithm of the vertices.
pub fn generate(alloc: Global, seed: u32, size: u32) -> Result<Graph, OutOfMemory>
    ensures edges { IfOk result (λ graph. graph.edges ≡ edges_of seed size) }
    ensures vertices { IfOk result (λ graph. graph.vertices
        ≡ map (vertex_of (edges_of seed size)) (vertices_below size)) }
{
    let edges = drawn_edges(alloc, seed, size)?;
    let ids = numbers_below(alloc, vertex_count(size))?;
    Graph::from_edges(alloc, edges, ids.as_slice())
}

fn vertex_count(size: u32) -> u32
    ensures { result ≡ vertex_count size }
{
    size / 4 + 1
}

// The edges, by two draws each.
fn drawn_edges(alloc: Global, seed: u32, size: u32) -> Result<Items<Edge>, OutOfMemory>
    ensures { IfOk result (λ edges. edges ≡ edges_of seed size) }
{
    let vertices = vertex_count(size);
    let mut draws = Draws::new(seed);
    let mut edges = Items::new(alloc);
    for i in 0..size {
        let source = draws.draw();
        let target = draws.draw();
        edges.push(edge_by(vertices, i, source, target))?;
    }
    Ok(edges)
}

// Edge i, by its draws.
fn edge_by(vertices: u32, i: u32, source: u32, target: u32) -> Edge
    requires { 0 < vertices }
    ensures { result ≡ edge_by vertices i source target }
{
    Edge {
        src: source % vertices,
        dst: target % target_count(vertices, i),
        weight: 1 + i % 7,
    }
}

// Among how many vertices edge i has its target.
fn target_count(vertices: u32, i: u32) -> u32
    requires { 0 < vertices }
    ensures count { result ≡ target_count vertices i }
    ensures some { 0 < result }
{
    if i % 4 == 3 {
        vertices.min(8)
    } else {
        vertices
    }
}

// The numbers from 0 up to a count.
fn numbers_below(alloc: Global, count: u32) -> Result<Items<u32>, OutOfMemory>
    ensures { IfOk result (λ numbers. numbers ≡ range_with_len 0 count) }
{
    let mut numbers = Items::new(alloc);
    for n in 0..count {
        numbers.push(n)?;
    }
    Ok(numbers)
}
