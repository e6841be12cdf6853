ghost use Rattle.std.specs.Prelude.{◌≡◌, ◌==◌, nat_lt, IfOk};
ghost use Rattle.std.specs.List.{filter_map, find, prefix_len};
ghost use Rattle.gr_base.specs.Rising.{RisesBy};
ghost use Rattle.gr_rules.specs.Taken.{edges_with_ends as edges_in_log, log_at};
ghost use Rattle.gr_migrate.specs.Ends.{ends_among};

use gr_base::{Items, NumberedEdge, OutOfMemory};
use gr_log::{EdgeLog, LogRecord};
use gr_rebirth::{LogEntry, directory, kept_edges};
use std::alloc::Global;
use std::marker::Model;

/// An edge in a log, with what the log says of its ends.
#[derive(Clone, Copy, Debug)]
pub struct LoggedEdge {
    pub arc: NumberedEdge,
    pub src: LogEntry,
    pub dst: LogEntry,
}

impl Model for LoggedEdge {
    ghost use Rattle.gr_rules.specs.Taken.{Ends as ends};

    ghost Value = { ends };

    ghost view = { λ x. record { arc = x.arc; src = x.src; dst = x.dst } };

    ghost inverse = { λ x. record { arc = x.arc; src = x.src; dst = x.dst } };
}

/// The committed records of a place: none where it has no log.
pub(crate) fn records_at(
    alloc: Global,
    logs: &[EdgeLog],
    p: u8,
) -> Result<Items<LogRecord>, OutOfMemory>
    ensures { IfOk result (λ records. records ≡ (log_at logs.now p).committed) }
{
    match logs.get(usize::from(p)) {
        Some(log) => log.records(),
        None => Ok(Items::new(alloc)),
    }
}

/// The edges in the log of a place with the entries of their ends there, in the order of their records, except edges
/// of which an end has no entry.
pub(crate) fn edges_with_ends(
    alloc: Global,
    logs: &[EdgeLog],
    p: u8,
) -> Result<Items<LoggedEdge>, OutOfMemory>
    ensures { IfOk result (λ edges. edges ≡ edges_in_log (log_at logs.now p).committed) }
{
    let records = records_at(alloc, logs, p)?;
    let entries = directory(alloc, records.as_slice())?;
    let kept = kept_edges(alloc, records.as_slice())?;
    with_ends(alloc, kept.as_slice(), entries.as_slice())
}

/// Edges with the entries of their ends, except those of which an end has no entry.
fn with_ends(
    alloc: Global,
    arcs: &[NumberedEdge],
    entries: &[LogEntry],
) -> Result<Items<LoggedEdge>, OutOfMemory>
    requires { RisesBy (λ e. e.vertex) entries.now }
    ensures { IfOk result (λ edges. edges ≡ filter_map (ends_among entries.now) arcs.now) }
{
    let mut edges = Items::new(alloc);
    for arc in arcs {
        if let Some(ends) = ends_of(arc, entries) {
            edges.push(ends)?;
        }
    }
    Ok(edges)
}

/// An edge with the entries of its ends, each found by a binary search.
fn ends_of(arc: &NumberedEdge, entries: &[LogEntry]) -> Option<LoggedEdge>
    requires { RisesBy (λ e. e.vertex) entries.now }
    ensures { result ≡ ends_among entries.now arc.now }
{
    let src = entry_of(entries, arc.edge.src)?;
    let dst = entry_of(entries, arc.edge.dst)?;
    Some(LoggedEdge {
        arc: *arc,
        src,
        dst,
    })
}

/// How many entries have a vertex below this one.
fn place_of(entries: &[LogEntry], v: u32) -> usize
    requires { RisesBy (λ e. e.vertex) entries.now }
    ensures { result ≡ prefix_len (λ e. nat_lt e.vertex v) entries.now }
{
    entries.partition_point(|entry| entry.vertex < v)
}

/// The entry of a vertex.
fn entry_of(entries: &[LogEntry], v: u32) -> Option<LogEntry>
    requires { RisesBy (λ e. e.vertex) entries.now }
    ensures { result ≡ find (λ e. e.vertex == v) entries.now }
{
    let at = place_of(entries, v);
    if at >= entries.len() {
        return None;
    }
    let entry = &entries[at];
    if entry.vertex == v {
        Some(*entry)
    } else {
        None
    }
}
