ghost use Rattle.std.specs.Prelude.{◌≡◌, ◌<◌, ◌-◌, ◌^◌, false};
ghost use Rattle.gr_sched.specs.declared.event.Event.TheVariants as event;
ghost use Rattle.gr_view.specs.Modes.{is_over};
ghost use Rattle.gr_cluster.specs.Step.{step};
ghost use Rattle.gr_core.specs.Decided.{opened_in};

use crate::cluster::Cluster;
use gr_base::PlaceSet;
use gr_batch::Outcome;
use gr_program::{Datum, VertexProgram};

impl<P: VertexProgram> Cluster<P> {
    // A repair opens in the place of a round.
    pub(crate) fn repair(&mut self) -> Outcome<P::Value, P::Acc>
        requires going { is_over self.old.cluster.coordinator.mode ≡ false }
        requires epoch { self.old.cluster.coordinator.epoch < 2 ^ 64 - 1 }
        ensures step { (self.new.cluster, result) ≡ step (P.program_of self.old.program) self.old.cluster event.Repair }
        ensures program { self.new.program ≡ self.old.program }
    {
        self.kept.forget_all();
        self.resting = PlaceSet::none();
        self.retired = None;
        repaired(self.coordinator.open_repair())
    }
}

// What a repair tells.
fn repaired<V: Datum, A: Datum>(epoch: Option<u64>) -> Outcome<V, A>
    ensures { result ≡ opened_in epoch }
{
    match epoch {
        Some(epoch) => Outcome::Opened(epoch),
        None => Outcome::Idle,
    }
}
