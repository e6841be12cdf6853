ghost use Rattle.std.specs.Prelude.{◌≡◌, ◌<◌, ◌^◌, false, ◌++◌, OnOk, OnErr};
ghost use Rattle.std.specs.List.{All};
ghost use Rattle.gr_edges.specs.Vertices.{ids};
ghost use Rattle.gr_edges.specs.Reading.{IsWithinLimits};
ghost use Rattle.gr_edges.specs.Text.{vertex_line, edge_line, text_of, Has32Bits, IsFront, IsReadAs};

use crate::graph::{Graph, VertexInfo};
use gr_base::{Edge, OutOfMemory, push_number};
use std::alloc::Global;

/// Appends one line for each vertex, its id, and then one for each edge: source, target and weight.
///
/// Within the limits of a graph, `read_graph` gives the graph again from these lines, read as directed.
pub fn print_graph(alloc: Global, graph: &Graph, into: &mut Vec<u8>) -> Result<(), OutOfMemory>
    ensures ok { OnOk result (into.new.items ≡ into.old.items ++ text_of graph.now.edges graph.now.vertices) }
    ensures err { OnErr result (into.new.items ≡ into.old.items) }
    ensures read_back { OnOk result (IsWithinLimits graph.now.edges (ids graph.now.vertices) →
        IsReadAs false (text_of graph.now.edges graph.now.vertices) graph.now.edges graph.now.vertices) }
{
    let before = into.len();
    match append_lines(alloc, graph, into) {
        Ok(()) => Ok(()),
        Err(fault) => {
            into.truncate(before);
            Err(fault)
        }
    }
}

// Appends the lines; a part of them where memory runs out.
fn append_lines(alloc: Global, graph: &Graph, into: &mut Vec<u8>) -> Result<(), OutOfMemory>
    ensures ok { OnOk result (into.new.items ≡ into.old.items ++ text_of graph.now.edges graph.now.vertices) }
    ensures small_ids { OnOk result (All (λ v. v.id < 2 ^ 32) graph.now.vertices) }
    ensures small_edges { OnOk result (All Has32Bits graph.now.edges) }
    ensures front { IsFront into.old.items into.new.items }
{
    for v in graph.vertices.as_slice() {
        append_vertex(alloc, *v, into)?;
    }
    for e in graph.edges.as_slice() {
        append_edge(alloc, *e, into)?;
    }
    Ok(())
}

fn append_vertex(alloc: Global, v: VertexInfo, into: &mut Vec<u8>) -> Result<(), OutOfMemory>
    ensures ok { OnOk result (into.new.items ≡ into.old.items ++ vertex_line v) }
    ensures small { v.id < 2 ^ 32 }
    ensures front { IsFront into.old.items into.new.items }
{
    push_number(alloc, into, u64::from(v.id))?;
    into.push(b'\n')?;
    Ok(())
}

fn append_edge(alloc: Global, e: Edge, into: &mut Vec<u8>) -> Result<(), OutOfMemory>
    ensures ok { OnOk result (into.new.items ≡ into.old.items ++ edge_line e) }
    ensures small { Has32Bits e }
    ensures front { IsFront into.old.items into.new.items }
{
    push_number(alloc, into, u64::from(e.src))?;
    into.push(b' ')?;
    push_number(alloc, into, u64::from(e.dst))?;
    into.push(b' ')?;
    push_number(alloc, into, u64::from(e.weight))?;
    into.push(b'\n')?;
    Ok(())
}
