ghost use Rattle.std.specs.Prelude.{◌≡◌, ◌<◌, false, is_some, set, get_or, length, min, None};
ghost use Rattle.gr_sched.specs.declared.event.Event.TheVariants as event;
ghost use Rattle.gr_view.specs.Modes.{is_over};
ghost use Rattle.gr_log.specs.Log.{torn_log, tail_size};
ghost use Rattle.gr_rules.specs.Taken.{log_at};
ghost use Rattle.gr_cluster.specs.Step.{step};

use crate::cluster::Cluster;
use crate::host::Host;
use gr_base::PlaceSet;
use gr_batch::Outcome;
use gr_log::EdgeLog;
use gr_program::VertexProgram;

impl<P: VertexProgram> Cluster<P> {
    // The machine of a place goes down. Its memory is lost, and of its log all but the committed part and the first
    // `keep` bytes after it.
    pub(crate) fn crash(&mut self, p: u8, keep: u32) -> Outcome<P::Value, P::Acc>
        requires place { p < self.old.cluster.places }
        requires going { is_over self.old.cluster.coordinator.mode ≡ false }
        ensures step { (self.new.cluster, result)
            ≡ step (P.program_of self.old.program) self.old.cluster (event.Crash p keep) }
        ensures program { self.new.program ≡ self.old.program }
    {
        let _count = self.places();
        self.kept.forget_all();
        self.resting = PlaceSet::none();
        self.retired = None;
        if lose(&mut self.hosts, p) {
            Outcome::Crashed(tear(&mut self.logs, p, keep))
        } else {
            Outcome::Idle
        }
    }
}

// The memory of a place is lost. It tells whether there was any.
pub(crate) fn lose<P: VertexProgram>(hosts: &mut Vec<Option<Host<P>>>, p: u8) -> bool
    requires { p < length hosts.old.items }
    ensures hosts { hosts.new.items ≡ set hosts.old.items p None }
    ensures was_up { result ≡ is_some (get_or hosts.old.items p None) }
{
    let place = usize::from(p);
    let was_up = hosts[place].is_some();
    hosts[place] = None;
    was_up
}

// The log of a place loses all that was not committed but its first bytes. It tells how many they are.
fn tear(logs: &mut Vec<EdgeLog>, p: u8, keep: u32) -> u32
    requires { p < length logs.old.items }
    ensures logs { logs.new.items ≡ set logs.old.items p (torn_log keep (log_at logs.old.items p)) }
    ensures kept { result ≡ min keep (tail_size (log_at logs.old.items p)) }
{
    logs[usize::from(p)].tear(keep)
}
