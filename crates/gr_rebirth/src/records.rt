ghost use Rattle.std.specs.Prelude.{◌≡◌, filter_map, IfOk};
ghost use Rattle.gr_base.specs.Rising.{RisesBy};
ghost use Rattle.gr_log.specs.Directory.{entry_of, edge_of, directory_in, kept_edges as edges_kept, edges_in};

use crate::LogEntry;
use gr_base::{Items, NumberedEdge, OutOfMemory};
use gr_log::LogRecord;
use gr_numbered::last_of_each;
use std::alloc::Global;

/// What records say of the vertices: the last entry of each, by rising vertex. It takes time linear-logarithmic in the
/// number of records.
///
/// # Errors
///
/// `OutOfMemory` if memory runs out.
pub fn directory(alloc: Global, records: &[LogRecord]) -> Result<Items<LogEntry>, OutOfMemory>
    ensures entries { IfOk result (λ entries. entries ≡ directory_in records.now) }
    ensures rise { IfOk result (λ entries. RisesBy (λ e. e.vertex) entries) }
{
    let entries = entries(alloc, records)?;
    last_of_each(alloc, entries.as_slice())
}

/// The edges that records keep, by rising number, in time linear-logarithmic in the number of records.
///
/// # Errors
///
/// `OutOfMemory` if memory runs out.
pub fn edges(alloc: Global, records: &[LogRecord]) -> Result<Items<NumberedEdge>, OutOfMemory>
    ensures edges { IfOk result (λ edges. edges ≡ edges_in records.now) }
    ensures rise { IfOk result (λ edges. RisesBy (λ a. a.number) edges) }
{
    let kept = kept_edges(alloc, records)?;
    last_of_each(alloc, kept.as_slice())
}

/// The edges that records keep, in their order and in linear time.
///
/// # Errors
///
/// `OutOfMemory` if memory runs out.
pub fn kept_edges(alloc: Global, records: &[LogRecord]) -> Result<Items<NumberedEdge>, OutOfMemory>
    ensures { IfOk result (λ edges. edges ≡ edges_kept records.now) }
{
    let mut edges = Items::new(alloc);
    for item in records {
        if let LogRecord::Kept(edge) = item {
            edges.push(*edge)?;
        }
    }
    Ok(edges)
}

/// The entries of the `Held` records, in their order.
fn entries(alloc: Global, records: &[LogRecord]) -> Result<Items<LogEntry>, OutOfMemory>
    ensures { IfOk result (λ entries. entries ≡ filter_map entry_of records.now) }
{
    let mut entries = Items::new(alloc);
    for item in records {
        if let Some(entry) = LogEntry::of(item) {
            entries.push(entry)?;
        }
    }
    Ok(entries)
}
