ghost use Rattle.std.specs.Prelude.{◌≡◌, ◌≤◌, length, None};
ghost use Rattle.gr_log.specs.Log.{cut_log};
ghost use Rattle.gr_cluster.specs.Tables.{changed_at};

use crate::cluster::crash::lose;
use crate::host::Host;
use gr_base::PlaceSet;
use gr_log::EdgeLog;
use gr_program::VertexProgram;

// The hosts of some places go back to the spares, and only the committed logs of the places stay.
pub(crate) fn send_back<P: VertexProgram>(
    hosts: &mut Vec<Option<Host<P>>>,
    logs: &mut Vec<EdgeLog>,
    places: PlaceSet,
)
    requires few_hosts { length hosts.old.items ≤ 64 }
    requires few_logs { length logs.old.items ≤ 64 }
    ensures hosts { hosts.new.items ≡ changed_at places (λ _ _. None) hosts.old.items }
    ensures logs { logs.new.items ≡ changed_at places (λ _. cut_log) logs.old.items }
{
    free_hosts(hosts, places);
    cut_tails(logs, places);
}

// The machines of some places go.
fn free_hosts<P: VertexProgram>(hosts: &mut Vec<Option<Host<P>>>, places: PlaceSet)
    requires few { length hosts.old.items ≤ 64 }
    ensures { hosts.new.items ≡ changed_at places (λ _ _. None) hosts.old.items }
{
    for p in 0..hosts.len() as u8 {
        if places.has(p) {
            lose(hosts, p);
        }
    }
}

// The logs of some places lose what is not committed.
pub(crate) fn cut_tails(logs: &mut Vec<EdgeLog>, places: PlaceSet)
    requires few { length logs.old.items ≤ 64 }
    ensures { logs.new.items ≡ changed_at places (λ _. cut_log) logs.old.items }
{
    for p in 0..logs.len() as u8 {
        if places.has(p) {
            logs[usize::from(p)].cut_tail();
        }
    }
}
