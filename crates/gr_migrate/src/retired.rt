ghost use Rattle.std.specs.Prelude.{◌≡◌, ◌≤◌, IfOk};
ghost use Rattle.std.specs.List.{All};
ghost use Rattle.gr_migrate.specs.Ends.{MastersKnown, KnowsMasters, retired_edges as edges_retired};

use crate::ends::{LoggedEdge, edges_with_ends};
use crate::masters::is_retiring;
use gr_base::{Items, OutOfMemory};
use gr_copies::RebuildView;
use gr_log::EdgeLog;
use std::alloc::Global;

/// The edges in the logs of the places that retire, with the entries of their ends: log by log, and in the order of
/// their records.
///
/// It takes searches for each committed record of a place that retires.
///
/// # Errors
///
/// `OutOfMemory` if memory runs out.
pub fn retired_edges(
    alloc: Global,
    logs: &[EdgeLog],
    view: &RebuildView,
) -> Result<Items<LoggedEdge>, OutOfMemory>
    requires places { view.now.places ≤ 64 }
    requires masters { MastersKnown view.now logs.now }
    ensures edges { IfOk result (λ edges. edges ≡ edges_retired view.now logs.now) }
    ensures masters { IfOk result (λ edges. All KnowsMasters edges) }
{
    let mut retired = Items::new(alloc);
    for r in 0..view.places {
        if is_retiring(view, r) {
            let edges = edges_with_ends(alloc, logs, r)?;
            retired.extend_from_slice(edges.as_slice())?;
        }
    }
    Ok(retired)
}
