ghost use Rattle.std.specs.Prelude.{◌≡◌, [], OnOk, OnErr, IfOk, map};
ghost use Rattle.gr_log.specs.declared.record.LogRecord.TheVariants as item;
ghost use Rattle.gr_log.specs.Bytes.{size_of};
ghost use Rattle.gr_log.specs.Log.{with_records};
ghost use Rattle.gr_rules.specs.Rows.{record_of};
ghost use Rattle.gr_rules.specs.Grants.{records_after};
ghost use Rattle.gr_rebuild.specs.Ending.{IsAllCommitted};

use gr_base::{NumberedEdge, OutOfMemory};
use gr_log::{EdgeLog, LogRecord};
use gr_program::{Datum, VertexCopy};

/// Appends to the log of the place a record for each copy that it is granted and for each edge that it takes, in this
/// order, and tells how many bytes they have. Before, all of the log is committed.
///
/// It takes time linear in the number of records.
///
/// # Errors
///
/// `OutOfMemory` if memory runs out. Then the log is as before.
pub fn record<V: Datum>(
    log: &mut EdgeLog,
    granted: &[VertexCopy<V>],
    taken: &[NumberedEdge],
) -> Result<u64, OutOfMemory>
    requires { IsAllCommitted log.old }
    ensures records { OnOk result (log.new ≡ with_records (records_after granted.now taken.now) log.old) }
    ensures bytes { IfOk result (λ bytes. bytes ≡ size_of (records_after granted.now taken.now)) }
    ensures err { OnErr result (log.new ≡ log.old) }
{
    if let Err(error) = append_some(log, granted, taken) {
        log.cut_tail();
        return Err(error);
    }
    Ok((log.length() - log.committed()) as u64)
}

/// Appends the records, up to the first for which there is no memory.
fn append_some<V: Datum>(
    log: &mut EdgeLog,
    granted: &[VertexCopy<V>],
    taken: &[NumberedEdge],
) -> Result<(), OutOfMemory>
    requires { log.old.torn ≡ [] }
    ensures records { OnOk result (log.new ≡ with_records (records_after granted.now taken.now) log.old) }
    ensures committed { log.new.committed ≡ log.old.committed }
{
    append_copies(log, granted)?;
    append_edges(log, taken)
}

/// Appends a record for each copy, up to the first for which there is no memory.
fn append_copies<V: Datum>(log: &mut EdgeLog, granted: &[VertexCopy<V>]) -> Result<(), OutOfMemory>
    requires { log.old.torn ≡ [] }
    ensures records { OnOk result (log.new ≡ with_records (map record_of granted.now) log.old) }
    ensures committed { log.new.committed ≡ log.old.committed }
{
    for copy in granted {
        log.append(held(copy))?;
    }
    Ok(())
}

/// Appends a record for each edge, up to the first for which there is no memory.
fn append_edges(log: &mut EdgeLog, taken: &[NumberedEdge]) -> Result<(), OutOfMemory>
    requires { log.old.torn ≡ [] }
    ensures records { OnOk result (log.new ≡ with_records (map item.Kept taken.now) log.old) }
    ensures committed { log.new.committed ≡ log.old.committed }
{
    for edge in taken {
        log.append(LogRecord::Kept(*edge))?;
    }
    Ok(())
}

/// The record of a copy.
fn held<V: Datum>(copy: &VertexCopy<V>) -> LogRecord
    ensures { result ≡ record_of copy.now }
{
    LogRecord::Held {
        vertex: copy.vertex,
        indeg: copy.indeg,
        outdeg: copy.outdeg,
        master: copy.master,
        holders: copy.holders,
    }
}
