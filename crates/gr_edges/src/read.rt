ghost use Rattle.std.specs.Prelude.{◌≡◌, ◌≤◌, ◌⊎◌, [], ◌++◌, length, Some, None, OnOk, IfOk, IfErr};
ghost use Rattle.std.specs.Option.{option_or};
ghost use Rattle.gr_edges.specs.Reading.{lines_of, edges_of, vertices_of, edges_of_line, ids_of_line, ids_of};
ghost use Rattle.gr_edges.specs.Reading.{joined, both_ways, fault_of_line, fault_of_size, first_fault};
ghost use Rattle.gr_edges.specs.Reading.{max_edges, max_vertices, IsWithinLimits};

use crate::fault::GraphFault;
use crate::graph::Graph;
use crate::id_set::IdSet;
use crate::line::{LineFound, read_line};
use gr_base::{Edge, Items, OutOfMemory};
use gr_text::line_len;
use std::alloc::Global;

const MAX_EDGES: usize = 4194304;

const MAX_VERTICES: usize = 1048576;

/// Reads a graph, line by line.
///
/// A line has one to three decimal numbers of 32 bits between spaces and tabs: a vertex, an edge of weight 1, or
/// an edge and its weight. Empty lines and those that begin with `#` or `%` are skipped. `undirected` adds after
/// each edge its reverse, but for a self-loop. The cost is linear in the bytes, with a logarithm for the ids.
pub fn read_graph(alloc: Global, bytes: &[u8], undirected: bool) -> Result<Graph, GraphFault>
    requires { length bytes.now ≤ 268435456 }
    ensures accepted { OnOk result (first_fault undirected (lines_of bytes.now) ≡ None) }
    ensures edges { IfOk result (λ graph. graph.edges ≡ edges_of undirected (lines_of bytes.now)) }
    ensures vertices { IfOk result (λ graph. graph.vertices ≡ vertices_of undirected (lines_of bytes.now)) }
    ensures few_edges { IfOk result (λ graph. length graph.edges ≤ max_edges) }
    ensures few_vertices { IfOk result (λ graph. length graph.vertices ≤ max_vertices) }
    ensures refused { IfErr result (λ fault.
        (fault ≡ GraphFault.OutOfMemory) ⊎ (first_fault undirected (lines_of bytes.now) ≡ Some fault)) }
{
    let mut edges = Items::new(alloc);
    let slots = (bytes.len() / 2).clamp(1, 4 * MAX_VERTICES);
    let mut ids = IdSet::new(alloc, slots)?;
    take_lines(&mut edges, &mut ids, undirected, bytes)?;
    let numbers = ids.numbers(alloc)?;
    let graph = Graph::from_edges(alloc, edges, numbers.as_slice())?;
    Ok(graph)
}

// Takes what the lines of a text say, up to the first faulty one.
fn take_lines(
    edges: &mut Items<Edge>,
    ids: &mut IdSet,
    undirected: bool,
    bytes: &[u8],
) -> Result<(), GraphFault>
    requires small { length bytes.now ≤ 268435456 }
    requires no_edge { edges.old ≡ [] }
    requires no_id { ids.old ≡ [] }
    ensures accepted { OnOk result (first_fault undirected (lines_of bytes.now) ≡ None) }
    ensures edges { OnOk result (edges.new ≡ edges_of undirected (lines_of bytes.now)) }
    ensures ids { OnOk result (ids.new ≡ ids_of (lines_of bytes.now)) }
    ensures few { OnOk result (IsWithinLimits edges.new ids.new) }
    ensures refused { IfErr result (λ fault.
        (fault ≡ GraphFault.OutOfMemory) ⊎ (first_fault undirected (lines_of bytes.now) ≡ Some fault)) }
{
    let mut rest = bytes;
    let mut done: u32 = 0;
    'lines: loop {
        let len = line_len(rest);
        let line = read_line(&rest[..len]);
        take_line(edges, ids, done + 1, undirected, line)?;
        if len == rest.len() {
            return Ok(());
        }
        rest = &rest[len + 1..];
        done += 1;
    }
}

// Takes what the line with this number says.
fn take_line(
    edges: &mut Items<Edge>,
    ids: &mut IdSet,
    number: u32,
    undirected: bool,
    line: LineFound,
) -> Result<(), GraphFault>
    ensures edges { OnOk result (edges.new ≡ edges.old ++ edges_of_line undirected line) }
    ensures ids { OnOk result (ids.new ≡ joined ids.old (ids_of_line line)) }
    ensures sound { OnOk result (fault_of_line number line ≡ None) }
    ensures size { OnOk result (fault_of_size max_edges max_vertices number edges.new ids.new ≡ None) }
    ensures few { OnOk result (IsWithinLimits edges.new ids.new) }
    ensures err { IfErr result (λ fault.
        (fault ≡ GraphFault.OutOfMemory) ⊎ (option_or (fault_of_line number line) (fault_of_size max_edges max_vertices
        number (edges.old ++ edges_of_line undirected line) (joined ids.old (ids_of_line line))) ≡ Some fault)) }
{
    check_line(number, line)?;
    add_edges(edges, undirected, line)?;
    add_ids(ids, line)?;
    check_size(number, edges, ids)
}

fn check_line(number: u32, line: LineFound) -> Result<(), GraphFault>
    ensures ok { OnOk result (fault_of_line number line ≡ None) }
    ensures err { IfErr result (λ fault. fault_of_line number line ≡ Some fault) }
{
    match line {
        LineFound::TooLarge => Err(GraphFault::NumberTooLarge(number)),
        LineFound::Bad => Err(GraphFault::BadLine(number)),
        LineFound::Skipped => Ok(()),
        LineFound::Vertex(_) => Ok(()),
        LineFound::Edge(_, _, _) => Ok(()),
    }
}

fn add_edges(edges: &mut Items<Edge>, undirected: bool, line: LineFound) -> Result<(), OutOfMemory>
    ensures { OnOk result (edges.new ≡ edges.old ++ edges_of_line undirected line) }
{
    match line {
        LineFound::Edge(src, dst, weight) => {
            add_both_ways(edges, undirected, Edge { src, dst, weight })
        }
        LineFound::Skipped => Ok(()),
        LineFound::Vertex(_) => Ok(()),
        LineFound::TooLarge => Ok(()),
        LineFound::Bad => Ok(()),
    }
}

fn add_both_ways(edges: &mut Items<Edge>, undirected: bool, edge: Edge) -> Result<(), OutOfMemory>
    ensures { OnOk result (edges.new ≡ edges.old ++ both_ways undirected edge) }
{
    edges.push(edge)?;
    if undirected && edge.src != edge.dst {
        edges.push(Edge {
            src: edge.dst,
            dst: edge.src,
            weight: edge.weight,
        })?;
    }
    Ok(())
}

fn add_ids(ids: &mut IdSet, line: LineFound) -> Result<(), OutOfMemory>
    ensures { OnOk result (ids.new ≡ joined ids.old (ids_of_line line)) }
{
    match line {
        LineFound::Vertex(v) => { ids.insert(v) }
        LineFound::Edge(src, dst, _) => {
            ids.insert(src)?;
            ids.insert(dst)
        }
        LineFound::Skipped => Ok(()),
        LineFound::TooLarge => Ok(()),
        LineFound::Bad => Ok(()),
    }
}

fn check_size(number: u32, edges: &Items<Edge>, ids: &IdSet) -> Result<(), GraphFault>
    ensures ok { OnOk result (fault_of_size max_edges max_vertices number edges.now ids.now ≡ None) }
    ensures few { OnOk result (IsWithinLimits edges.now ids.now) }
    ensures err { IfErr result (λ fault. fault_of_size max_edges max_vertices number edges.now ids.now ≡ Some fault) }
{
    if edges.len() > MAX_EDGES {
        Err(GraphFault::TooManyEdges(number))
    } else if ids.is_above(MAX_VERTICES) {
        Err(GraphFault::TooManyVertices(number))
    } else {
        Ok(())
    }
}
