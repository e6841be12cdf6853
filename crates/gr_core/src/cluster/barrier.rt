ghost use Rattle.std.specs.Prelude.{◌≡◌, ◌<◌, ◌≤◌, ◌-◌, ◌^◌, ℕ, false, [], length, IsTrue};
ghost use Rattle.gr_base.specs.Rising.{has as is_in};
ghost use Rattle.gr_sched.specs.declared.event.Event.TheVariants as event;
ghost use Rattle.gr_view.specs.declared.coordinator.Verdict.TheVariants as decided;
ghost use Rattle.gr_view.specs.Modes.{is_over, is_rebuild};
ghost use Rattle.gr_view.specs.Decisions as decisions;
ghost use Rattle.gr_view.specs.Decisions.{parties};
ghost use Rattle.gr_log.specs.Log.{committed_log};
ghost use Rattle.gr_rules.specs.Taken.{log_at};
ghost use Rattle.gr_cluster.specs.Tables.{changed_at};
ghost use Rattle.gr_cluster.specs.Step.{step};
ghost use Rattle.gr_core.specs.Decided.{told_of, hosts_after, logs_after};

use crate::cluster::Cluster;
use crate::cluster::back::send_back;
use crate::host::Host;
use crate::turn::is_rebuild;
use gr_base::PlaceSet;
use gr_batch::Outcome;
use gr_log::EdgeLog;
use gr_program::VertexProgram;
use gr_view::{Coordinator, Mode, Verdict};

impl<P: VertexProgram> Cluster<P> {
    // The coordinator looks at the places that take part, and decides.
    pub(crate) fn barrier(&mut self) -> Outcome<P::Value, P::Acc>
        requires going { is_over self.old.cluster.coordinator.mode ≡ false }
        requires epoch { self.old.cluster.coordinator.epoch < 2 ^ 64 - 1 }
        requires commits { self.old.cluster.coordinator.commits < 2 ^ 64 - 1 }
        ensures step { (self.new.cluster, result)
            ≡ step (P.program_of self.old.program) self.old.cluster event.Barrier }
        ensures program { self.new.program ≡ self.old.program }
    {
        // A look at the limit tells that it has 32 bits; until the run is over the committed rounds are below it.
        let _limit = self.coordinator.limit;
        let before = self.coordinator;
        let down = self.down_among(looked_at(&before));
        self.kept.forget_all();
        self.resting = PlaceSet::none();
        self.retired = None;
        let verdict = self.coordinator.barrier(down);
        carry_out(&mut self.hosts, &mut self.logs, &before, down, verdict)
    }
}

// The places that a barrier looks at.
fn looked_at(coordinator: &Coordinator) -> PlaceSet
    ensures { result ≡ decisions.looked_at coordinator.now }
{
    match coordinator.mode {
        Mode::Failed => coordinator.live,
        _ => coordinator.parties(),
    }
}

// What a verdict makes of the hosts and the logs, by the coordinator before it and the places that are down, and what
// it tells. After a failure the hosts of reborn places go back; a rebuild's commit commits the logs of the parties.
fn carry_out<P: VertexProgram>(
    hosts: &mut Vec<Option<Host<P>>>,
    logs: &mut Vec<EdgeLog>,
    before: &Coordinator,
    down: PlaceSet,
    verdict: Verdict,
) -> Outcome<P::Value, P::Acc>
    requires few_hosts { length hosts.old.items ≤ 64 }
    requires few_logs { length logs.old.items ≤ 64 }
    requires whole { (n r d p : ℕ) → verdict ≡ decided.Committed n r d → IsTrue (is_rebuild before.now.mode)
        → IsTrue (is_in (parties before.now) p) → (log_at logs.old.items p).torn ≡ [] }
    ensures hosts { hosts.new.items ≡ hosts_after before.now down verdict hosts.old.items }
    ensures logs { logs.new.items ≡ logs_after before.now down verdict logs.old.items }
    ensures outcome { result ≡ told_of verdict }
{
    match verdict {
        Verdict::Failed(places) => {
            send_back(hosts, logs, before.reborn.difference(down));
            Outcome::Failed(places)
        }
        Verdict::Committed(commits, rounds, due) => {
            if is_rebuild(before.mode) {
                commit_logs(logs, before.parties());
            }
            Outcome::Committed(commits, rounds, due)
        }
        Verdict::NotReady(p) => Outcome::NotReady(p),
        Verdict::Idle => Outcome::Idle,
    }
}

// The logs of some places are committed. None may have a torn record.
fn commit_logs(logs: &mut Vec<EdgeLog>, places: PlaceSet)
    requires few { length logs.old.items ≤ 64 }
    requires whole { (p : ℕ) → IsTrue (is_in places p) → (log_at logs.old.items p).torn ≡ [] }
    ensures { logs.new.items ≡ changed_at places (λ _. committed_log) logs.old.items }
{
    for p in 0..logs.len() as u8 {
        if places.has(p) {
            logs[usize::from(p)].commit();
        }
    }
}
