ghost use Rattle.std.specs.Prelude.{◌≡◌, ◌≤◌, Some, [], unwrap_or, OnOk, OnErr};
ghost use Rattle.gr_migrate.specs.Ends.{MastersKnown, retired_edges as edges_retired};
ghost use Rattle.gr_core.specs.Tables.{RetiredFit};

use gr_base::{Items, OutOfMemory};
use gr_copies::RebuildView;
use gr_log::EdgeLog;
use gr_migrate::{LoggedEdge, retired_edges};
use std::alloc::Global;

// The edges of places that retire are read from their logs, if they are not kept.
pub(crate) fn keep_retired(
    alloc: Global,
    kept: &mut Option<Items<LoggedEdge>>,
    logs: &[EdgeLog],
    view: &RebuildView,
) -> Result<(), OutOfMemory>
    requires places { view.now.places ≤ 64 }
    requires masters { MastersKnown view.now logs.now }
    requires kept { RetiredFit view.now logs.now kept.old }
    ensures ok { OnOk result (kept.new ≡ Some (edges_retired view.now logs.now)) }
    ensures err { OnErr result (kept.new ≡ kept.old) }
{
    if kept.is_none() {
        *kept = Some(retired_edges(alloc, logs, view)?);
    }
    Ok(())
}

// The edges of places that retire, as they are kept.
pub(crate) fn edges_of(kept: &Option<Items<LoggedEdge>>) -> &[LoggedEdge]
    ensures { result.now ≡ unwrap_or kept.now [] }
{
    match kept {
        Some(edges) => edges.as_slice(),
        None => &[],
    }
}
