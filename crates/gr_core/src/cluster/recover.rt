ghost use Rattle.std.specs.Prelude.{◌≡◌, ◌<◌, ◌-◌, ◌^◌, false, IfOk, OnErr};
ghost use Rattle.gr_sched.specs.declared.event.Event.TheVariants as event;
ghost use Rattle.gr_view.specs.Modes.{is_over};
ghost use Rattle.gr_cluster.specs.Step.{step};
ghost use Rattle.gr_core.specs.Decided.{opened_of};

use crate::cluster::Cluster;
use crate::cluster::spares::start_spares;
use crate::turn::is_failed;
use gr_base::{OutOfMemory, PlaceSet};
use gr_batch::Outcome;
use gr_program::{Datum, VertexProgram};
use gr_view::Opening;

impl<P: VertexProgram> Cluster<P> {
    // A recovery opens, with a spare for each of some dead places, or finds a vertex lost.
    pub(crate) fn recover(
        &mut self,
        rebirth: PlaceSet,
    ) -> Result<Outcome<P::Value, P::Acc>, OutOfMemory>
        requires going { is_over self.old.cluster.coordinator.mode ≡ false }
        requires epoch { self.old.cluster.coordinator.epoch < 2 ^ 64 - 1 }
        ensures ok { IfOk result (λ outcome. (self.new.cluster, outcome)
            ≡ step (P.program_of self.old.program) self.old.cluster (event.Recover rebirth)) }
        ensures program { self.new.program ≡ self.old.program }
        ensures err { OnErr result (self.new ≡ self.old) }
    {
        if !is_failed(self.coordinator.mode) {
            return Ok(Outcome::Idle);
        }
        let lost = self.lost()?.len() as u32;
        // A look into the set tells that its places rise.
        let _first = rebirth.has(0);
        let mut after = self.coordinator;
        let opening = after.open_recovery(rebirth, lost > 0);
        start_spares(
            self.alloc,
            &mut self.hosts,
            &mut self.logs,
            rebirth,
            self.coordinator.commits,
            opening,
        )?;
        self.kept.forget_all();
        self.resting = PlaceSet::none();
        self.retired = None;
        self.coordinator = after;
        Ok(opened(lost, opening))
    }
}

// What a recovery tells.
fn opened<V: Datum, A: Datum>(lost: u32, opening: Opening) -> Outcome<V, A>
    ensures { result ≡ opened_of lost opening }
{
    match opening {
        Opening::Opened(epoch) => Outcome::Opened(epoch),
        Opening::Lost => Outcome::LostFound(lost),
        Opening::Idle => Outcome::Idle,
    }
}
