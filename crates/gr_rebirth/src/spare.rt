ghost use Rattle.std.specs.Prelude.{◌≡◌, map, IfOk};
ghost use Rattle.gr_base.specs.Rising.{RisesBy};
ghost use Rattle.gr_arcs.specs.Layers.{number_of};
ghost use Rattle.gr_log.specs.Directory.{edges_in};
ghost use Rattle.gr_rules.specs.Rows.{blank_copy, blank_rows};

use crate::LogEntry;
use crate::records::{directory, edges};
use gr_arcs::Arcs;
use gr_base::{NumberedEdge, OutOfMemory};
use gr_log::EdgeLog;
use gr_program::Datum;
use gr_rows::Rows;
use std::alloc::Global;

/// The copies and the edges of a place that starts anew on a spare.
#[derive(Drop)]
pub struct Rebuilt<V: Datum> {
    pub rows: Rows<V>,
    pub arcs: Arcs,
}

/// What the committed records of a log say, in both layers: for each vertex a copy by its last record, without value
/// and not due, and the edges by rising number.
///
/// It takes time linear-logarithmic in the number of records.
///
/// # Errors
///
/// `OutOfMemory` if memory runs out.
pub fn blank<V: Datum>(alloc: Global, log: &EdgeLog) -> Result<Rebuilt<V>, OutOfMemory>
    ensures copies { IfOk result (λ rebuilt. rebuilt.rows.stable ≡ blank_rows log.now.committed) }
    ensures pending_copies { IfOk result (λ rebuilt. rebuilt.rows.pending ≡ blank_rows log.now.committed) }
    ensures edges { IfOk result (λ rebuilt. rebuilt.arcs.stable ≡ edges_in log.now.committed) }
    ensures pending_edges { IfOk result (λ rebuilt. rebuilt.arcs.pending ≡ edges_in log.now.committed) }
{
    let records = log.records()?;
    let directory = directory(alloc, records.as_slice())?;
    let edges = edges(alloc, records.as_slice())?;
    let rows = blank_rows(alloc, directory.as_slice())?;
    let arcs = arcs_of(alloc, edges.as_slice())?;
    Ok(Rebuilt { rows, arcs })
}

// The copies of a directory, in both layers.
fn blank_rows<V: Datum>(alloc: Global, directory: &[LogEntry]) -> Result<Rows<V>, OutOfMemory>
    requires { RisesBy (λ e. e.vertex) directory.now }
    ensures stable { IfOk result (λ rows. rows.stable ≡ map blank_copy directory.now) }
    ensures pending { IfOk result (λ rows. rows.pending ≡ map blank_copy directory.now) }
{
    let mut rows = Rows::new(alloc);
    for entry in directory {
        rows.stage_copy(entry.blank_copy())?;
    }
    rows.install();
    Ok(rows)
}

// These edges, in both layers.
fn arcs_of(alloc: Global, edges: &[NumberedEdge]) -> Result<Arcs, OutOfMemory>
    requires { RisesBy number_of edges.now }
    ensures stable { IfOk result (λ arcs. arcs.stable ≡ edges.now) }
    ensures pending { IfOk result (λ arcs. arcs.pending ≡ edges.now) }
{
    let mut arcs = Arcs::new(alloc);
    for edge in edges {
        arcs.stage_edge(*edge)?;
    }
    arcs.install();
    Ok(arcs)
}
