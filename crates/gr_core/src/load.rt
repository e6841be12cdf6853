ghost use Rattle.std.specs.Prelude.{◌≡◌, ◌<◌, ◌==◌, ◌&&◌, not, true, List, ℕ, Some, None, map, IfOk, if◌then◌else◌};
ghost use Rattle.gr_base.specs.declared.records.Edge as edge;
ghost use Rattle.gr_base.specs.Rising.{RisesBy};
ghost use Rattle.gr_base.specs.Places.{below};
ghost use Rattle.gr_edges.specs.Vertices.{ids, HasDegrees};
ghost use Rattle.gr_arcs.specs.Layers.{number_of};
ghost use Rattle.gr_cut.specs.Cut.{home, cut_of, edges_at_load};
ghost use Rattle.gr_copies.specs.Holders.{first_holders, first_directory};
ghost use Rattle.gr_log.specs.Log.{log_of};
ghost use Rattle.gr_rules.specs.Grants.{records_after};
ghost use Rattle.gr_rules.specs.Rows.{record_of};
ghost use Rattle.gr_cluster.specs.Load.{Setting, first_copy, first_rows, first_host as host_at_load};
ghost use Rattle.gr_cluster.specs.Load.{first_log as log_at_load};
ghost use Rattle.gr_core.specs.Loaded.{setting_of};

use crate::host::Host;
use gr_arcs::Arcs;
use gr_base::{Directory, Items, NumberedEdge, OutOfMemory};
use gr_cut::PlaceEdges;
use gr_edges::{Graph, VertexInfo};
use gr_job::Job;
use gr_log::{EdgeLog, LogRecord};
use gr_program::{Datum, VertexCopy, VertexProgram};
use gr_rows::Rows;
use std::alloc::Global;

// The hosts and the logs of all places at load.
pub(crate) fn first_places<P: VertexProgram>(
    alloc: Global,
    graph: &Graph,
    job: &Job,
    program: &P,
    directory: &[Directory],
    cut: &PlaceEdges,
) -> Result<(Vec<Option<Host<P>>>, Vec<EdgeLog>), OutOfMemory>
    requires directory { directory.now ≡ first_directory job.now.places job.now.theta job.now.losses graph.now.edges
        (ids graph.now.vertices) }
    requires cut { cut.now ≡ cut_of job.now.places job.now.theta graph.now.edges }
    ensures hosts { IfOk result (λ places. places.0.items
        ≡ map (host_at_load (P.program_of program.now) (setting_of job.now) graph.now.edges (ids graph.now.vertices))
        (below job.now.places)) }
    ensures logs { IfOk result (λ places. places.1.items
        ≡ map (log_at_load (P.program_of program.now) (setting_of job.now) graph.now.edges (ids graph.now.vertices))
        (below job.now.places)) }
{
    let mut hosts = Vec::new(alloc);
    let mut logs = Vec::new(alloc);
    for p in 0..job.places {
        let (host, log) = first_place(alloc, graph, job, program, directory, cut, p)?;
        hosts.push(Some(host))?;
        logs.push(log)?;
    }
    Ok((hosts, logs))
}

// The host and the log of a place at load.
fn first_place<P: VertexProgram>(
    alloc: Global,
    graph: &Graph,
    job: &Job,
    program: &P,
    directory: &[Directory],
    cut: &PlaceEdges,
    p: u8,
) -> Result<(Host<P>, EdgeLog), OutOfMemory>
    requires place { p < job.now.places }
    requires directory { directory.now ≡ first_directory job.now.places job.now.theta job.now.losses graph.now.edges
        (ids graph.now.vertices) }
    requires cut { cut.now ≡ cut_of job.now.places job.now.theta graph.now.edges }
    ensures host { IfOk result (λ place. Some place.0
        ≡ host_at_load (P.program_of program.now) (setting_of job.now) graph.now.edges (ids graph.now.vertices) p) }
    ensures log { IfOk result (λ place. place.1
        ≡ log_at_load (P.program_of program.now) (setting_of job.now) graph.now.edges (ids graph.now.vertices) p) }
{
    let copies = first_copies(alloc, graph, job, program, directory, p)?;
    let edges = first_edges(alloc, graph, job, cut, p)?;
    let arcs = first_arcs(alloc, edges.as_slice())?;
    let log = first_log(alloc, &copies, edges.as_slice())?;
    Ok((Host::new(alloc, copies, arcs), log))
}

// The copies of a place at load: one of each vertex that it holds.
fn first_copies<P: VertexProgram>(
    alloc: Global,
    graph: &Graph,
    job: &Job,
    program: &P,
    directory: &[Directory],
    p: u8,
) -> Result<Rows<P::Value>, OutOfMemory>
    requires place { p < 64 }
    requires directory { directory.now ≡ first_directory job.now.places job.now.theta job.now.losses graph.now.edges
        (ids graph.now.vertices) }
    ensures copies { IfOk result (λ rows. rows.stable
        ≡ first_rows (P.program_of program.now) (setting_of job.now) graph.now.edges (ids graph.now.vertices) p) }
    ensures layers { IfOk result (λ rows. rows.pending ≡ rows.stable) }
{
    let _count = graph.vertex_count();
    let vertices = graph.vertices.as_slice();
    let mut rows = Rows::new(alloc);
    for k in 0..vertices.len() {
        if directory[k].holders.has(p) {
            rows.stage_copy(copy_at_load(program, vertices[k], &directory[k], p))?;
        }
    }
    rows.install();
    Ok(rows)
}

// The copy of a vertex at a place that holds it.
fn copy_at_load<P: VertexProgram>(
    program: &P,
    vertex: VertexInfo,
    held: &Directory,
    p: u8,
) -> VertexCopy<P::Value>
    ensures { (s : Setting) (es : List edge.Edge) (vs : List ℕ) → HasDegrees es vertex
        → held.now ≡ record {
          vertex = vertex.id;
          master = home s.places vertex.id;
          holders = first_holders s.places s.theta s.losses es vertex.id;
        }
        → result ≡ first_copy (P.program_of program.now) s es vs p vertex.id }
{
    VertexCopy {
        vertex: vertex.id,
        indeg: vertex.indeg,
        outdeg: vertex.outdeg,
        master: held.master,
        holders: held.holders,
        value: value_at_load(program, vertex, held.master == p),
        due: true,
    }
}

// The value of a copy: a mirror of a vertex without readers holds none under a forgetful program.
fn value_at_load<P: VertexProgram>(
    program: &P,
    vertex: VertexInfo,
    is_master: bool,
) -> Option<P::Value>
    ensures { result ≡ (if (P.program_of program.now).forgetful &&
        ((vertex.outdeg == 0) && not is_master) then None else Some
        ((P.program_of program.now).start vertex.id vertex.indeg vertex.outdeg)) }
{
    if is_hidden(P::FORGETFUL, vertex.outdeg, is_master) {
        None
    } else {
        Some(program.start(vertex.id, vertex.indeg, vertex.outdeg))
    }
}

fn is_hidden(forgetful: bool, outdeg: u32, is_master: bool) -> bool
    ensures { result ≡ (forgetful && ((outdeg == 0) && not is_master)) }
{
    if !forgetful {
        return false;
    }
    if outdeg != 0 {
        return false;
    }
    !is_master
}

// The edges that stand at a place at load, by number.
fn first_edges(
    alloc: Global,
    graph: &Graph,
    job: &Job,
    cut: &PlaceEdges,
    p: u8,
) -> Result<Items<NumberedEdge>, OutOfMemory>
    requires place { p < job.now.places }
    requires cut { cut.now ≡ cut_of job.now.places job.now.theta graph.now.edges }
    ensures edges { IfOk result (λ edges. edges ≡ edges_at_load job.now.places job.now.theta graph.now.edges p) }
    ensures rise { IfOk result (λ edges. RisesBy number_of edges) }
{
    let all = graph.edges.as_slice();
    let mut edges = Items::new(alloc);
    for number in cut.at(p) {
        edges.push(NumberedEdge {
            number: *number,
            edge: all[*number as usize],
        })?;
    }
    Ok(edges)
}

// These edges, in both layers.
fn first_arcs(alloc: Global, edges: &[NumberedEdge]) -> Result<Arcs, OutOfMemory>
    requires { RisesBy number_of edges.now }
    ensures edges { IfOk result (λ arcs. arcs.stable ≡ edges.now) }
    ensures layers { IfOk result (λ arcs. arcs.pending ≡ arcs.stable) }
{
    let mut arcs = Arcs::new(alloc);
    for edge in edges {
        arcs.stage_edge(*edge)?;
    }
    arcs.install();
    Ok(arcs)
}

// The log of a place with these copies and edges, all of it committed.
fn first_log<V: Datum>(
    alloc: Global,
    rows: &Rows<V>,
    edges: &[NumberedEdge],
) -> Result<EdgeLog, OutOfMemory>
    ensures { IfOk result (λ log. log ≡ log_of (records_after rows.now.stable edges.now)) }
{
    let mut log = EdgeLog::new(alloc);
    let mut i = 0;
    while let Some(copy) = rows.at(i) {
        log.append(held(&copy))?;
        i += 1;
    }
    for edge in edges {
        log.append(LogRecord::Kept(*edge))?;
    }
    log.commit();
    Ok(log)
}

// The record of a copy.
fn held<V: Datum>(copy: &VertexCopy<V>) -> LogRecord
    ensures { result ≡ record_of copy.now }
{
    LogRecord::Held {
        vertex: copy.vertex,
        indeg: copy.indeg,
        outdeg: copy.outdeg,
        master: copy.master,
        holders: copy.holders,
    }
}
