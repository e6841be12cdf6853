ghost use Rattle.std.specs.Prelude.{◌≡◌, ◌≤◌, None, length, map, get_or, IfOk, OnOk, OnErr};
ghost use Rattle.gr_base.specs.Places.{below};
ghost use Rattle.gr_cluster.specs.Tables.{changed_at};
ghost use Rattle.gr_cluster.specs.Step.{reborn_host};
ghost use Rattle.gr_core.specs.Decided.{spare_at, hosts_opened, logs_opened};

use crate::cluster::back::cut_tails;
use crate::host::Host;
use gr_base::{OutOfMemory, PlaceSet};
use gr_log::EdgeLog;
use gr_program::VertexProgram;
use gr_rebirth::{Rebuilt, blank};
use gr_view::Opening;
use std::alloc::Global;
use std::mem::swap;

// Where a recovery opens, each reborn place starts on a spare with what its committed log says, and the log loses the
// rest. Where memory runs out all is as it was.
pub(crate) fn start_spares<P: VertexProgram>(
    alloc: Global,
    hosts: &mut Vec<Option<Host<P>>>,
    logs: &mut Vec<EdgeLog>,
    reborn: PlaceSet,
    commits: u64,
    opening: Opening,
) -> Result<(), OutOfMemory>
    requires as_many { length logs.old.items ≡ length hosts.old.items }
    requires few { length hosts.old.items ≤ 64 }
    ensures hosts { OnOk result (hosts.new.items ≡ hosts_opened reborn commits opening logs.old.items hosts.old.items) }
    ensures logs { OnOk result (logs.new.items ≡ logs_opened reborn opening logs.old.items) }
    ensures hosts_kept { OnErr result (hosts.new.items ≡ hosts.old.items) }
    ensures logs_kept { OnErr result (logs.new.items ≡ logs.old.items) }
{
    let Opening::Opened(epoch) = opening else {
        return Ok(());
    };
    let mut spares = spares(alloc, logs.as_slice(), reborn, epoch, commits)?;
    place_spares(hosts, &mut spares, reborn);
    cut_tails(logs, reborn);
    Ok(())
}

// The host that starts in each reborn place, and none at the others.
fn spares<P: VertexProgram>(
    alloc: Global,
    logs: &[EdgeLog],
    reborn: PlaceSet,
    epoch: u64,
    commits: u64,
) -> Result<Vec<Option<Host<P>>>, OutOfMemory>
    requires { length logs.now ≤ 64 }
    ensures { IfOk result (λ spares. spares.items
        ≡ map (spare_at reborn epoch commits logs.now) (below (length logs.now))) }
{
    let mut spares = Vec::new(alloc);
    for p in 0..logs.len() as u8 {
        if reborn.has(p) {
            spares.push(Some(spare(alloc, &logs[usize::from(p)], epoch, commits)?))?;
        } else {
            spares.push(None)?;
        }
    }
    Ok(spares)
}

// The host that starts with what the committed log of a place says.
fn spare<P: VertexProgram>(
    alloc: Global,
    log: &EdgeLog,
    epoch: u64,
    commits: u64,
) -> Result<Host<P>, OutOfMemory>
    ensures { IfOk result (λ host. host ≡ reborn_host epoch commits log.now.committed) }
{
    let Rebuilt { rows, arcs } = blank(alloc, log)?;
    Ok(Host::spare(alloc, rows, arcs, epoch, commits))
}

// The hosts of some places are taken out of a table of spares.
fn place_spares<P: VertexProgram>(
    hosts: &mut Vec<Option<Host<P>>>,
    spares: &mut Vec<Option<Host<P>>>,
    places: PlaceSet,
)
    requires few { length hosts.old.items ≤ 64 }
    requires as_many { length spares.old.items ≡ length hosts.old.items }
    ensures { hosts.new.items ≡ changed_at places (λ p _. get_or spares.old.items p None) hosts.old.items }
{
    for p in 0..hosts.len() as u8 {
        if places.has(p) {
            swap(&mut hosts[usize::from(p)], &mut spares[usize::from(p)]);
        }
    }
}
