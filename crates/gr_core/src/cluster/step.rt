ghost use Rattle.std.specs.Prelude.{◌≡◌, ◌<◌, ◌-◌, ◌^◌, ℕ, false, length, IsOk, IfOk, OnErr};
ghost use Rattle.gr_sched.specs.declared.event.Event.TheVariants as kind;
ghost use Rattle.gr_cluster.specs.Step.{step};
ghost use Rattle.gr_core.specs.Steps.{takes_memory};

use crate::cluster::Cluster;
use crate::turn::is_over;
use gr_base::OutOfMemory;
use gr_batch::Outcome;
use gr_program::VertexProgram;
use gr_sched::Event;

impl<P: VertexProgram> Cluster<P> {
    /// One event, in every mode. After the end of the run nothing happens.
    ///
    /// It keeps the invariant of `Cluster`: before and after it the cluster agrees with some committed state.
    ///
    /// A work costs what the computing of a stage, of the body of one batch, or of what is appended to a log costs. A
    /// delivery copies its batch; a recovery reads the logs of the dead places; a barrier and a discard take time
    /// linear in the places.
    ///
    /// # Errors
    ///
    /// `OutOfMemory` if memory runs out, only for the computing of a stage, a send, an append, a delivery or a
    /// recovery; then all is as it was.
    pub fn step(&mut self, event: Event) -> Result<Outcome<P::Value, P::Acc>, OutOfMemory>
        requires worker { (p : ℕ) → event ≡ kind.Work p → p < self.old.cluster.places }
        requires crashed { (p n : ℕ) → event ≡ kind.Crash p n → p < self.old.cluster.places }
        requires flight { length self.old.cluster.flight < 2 ^ 32 - 1 }
        requires serial { self.old.cluster.serial < 2 ^ 64 - 1 }
        requires epoch { self.old.cluster.coordinator.epoch < 2 ^ 64 - 1 }
        requires commits { self.old.cluster.coordinator.commits < 2 ^ 64 - 1 }
        ensures ok { IfOk result (λ outcome. (self.new.cluster, outcome)
            ≡ step (P.program_of self.old.program) self.old.cluster event) }
        ensures program { self.new.program ≡ self.old.program }
        ensures err { OnErr result (self.new ≡ self.old) }
        ensures told { takes_memory event (step (P.program_of self.old.program) self.old.cluster event).1 ≡ false
            → IsOk result }
    {
        if is_over(self.mode()) {
            return Ok(Outcome::Idle);
        }
        match event {
            Event::Work(p) => self.work(p),
            Event::Deliver(i) => self.deliver(i),
            Event::Discarded(i) => Ok(self.drop_batch(i)),
            Event::Crash(p, keep) => Ok(self.crash(p, keep)),
            Event::Barrier => Ok(self.barrier()),
            Event::Recover(rebirth) => self.recover(rebirth),
            Event::Repair => Ok(self.repair()),
            Event::Discard => Ok(self.discard()),
        }
    }
}
