ghost use Rattle.std.specs.Prelude.{◌≡◌, ◌<◌, ◌-◌, ◌^◌, false};
ghost use Rattle.gr_sched.specs.declared.event.Event.TheVariants as event;
ghost use Rattle.gr_view.specs.Modes.{is_over};
ghost use Rattle.gr_cluster.specs.Step.{step};
ghost use Rattle.gr_core.specs.Decided.{discarded_in};

use crate::cluster::Cluster;
use crate::cluster::back::send_back;
use gr_base::PlaceSet;
use gr_batch::Outcome;
use gr_program::{Datum, VertexProgram};

impl<P: VertexProgram> Cluster<P> {
    // The open round, or the open rebuild, is dropped. The hosts of reborn places go back to the spares; only a
    // recovery has some.
    pub(crate) fn discard(&mut self) -> Outcome<P::Value, P::Acc>
        requires going { is_over self.old.cluster.coordinator.mode ≡ false }
        requires epoch { self.old.cluster.coordinator.epoch < 2 ^ 64 - 1 }
        ensures step { (self.new.cluster, result)
            ≡ step (P.program_of self.old.program) self.old.cluster event.Discard }
        ensures program { self.new.program ≡ self.old.program }
    {
        let down = self.down_among(self.coordinator.parties());
        let back = self.coordinator.reborn.difference(down);
        self.kept.forget_all();
        self.resting = PlaceSet::none();
        self.retired = None;
        let epoch = self.coordinator.discard(down);
        send_back(&mut self.hosts, &mut self.logs, back);
        discarded(epoch)
    }
}

// What a discard tells.
fn discarded<V: Datum, A: Datum>(epoch: Option<u64>) -> Outcome<V, A>
    ensures { result ≡ discarded_in epoch }
{
    match epoch {
        Some(epoch) => Outcome::Discarded(epoch),
        None => Outcome::Idle,
    }
}
