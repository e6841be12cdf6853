ghost use Rattle.std.specs.Prelude.{◌≡◌, ◌≢◌, ◌<◌, ℕ, true, false, Some};
ghost use Rattle.std.specs.List.{find};
ghost use Rattle.gr_base.specs.Places.{below};
ghost use Rattle.gr_base.specs.Rising.{has};
ghost use Rattle.gr_rules.specs.Todo.{is_act};
ghost use Rattle.gr_round.specs.Todo.{todo_of};
ghost use Rattle.gr_cluster.specs.Tables.{Host as Held, host};
ghost use Rattle.gr_cluster.specs.Todo.{can_work};
ghost use Rattle.gr_core.specs.Steps.{next_of};

use crate::cluster::Cluster;
use crate::host::Host;
use crate::turn::{Turn, is_over};
use gr_base::PlaceSet;
use gr_program::VertexProgram;
use gr_round::{RoundView, Step};

impl<P: VertexProgram> Cluster<P> {
    /// The least place that can work. It takes no memory. A place is not asked again until it has worked, a batch has
    /// come to it, or another event than a work or a delivery was played.
    pub fn first_worker(&self) -> Option<u8>
        ensures { result ≡ find (λ p. can_work self.now.cluster.coordinator p (host self.now.cluster p))
            (below self.now.cluster.places) }
    {
        for p in 0..self.places() {
            if self.is_worker(p) {
                return Some(p);
            }
        }
        None
    }

    // Whether a place can work. A place that is known to rest is not asked.
    fn is_worker(&self, p: u8) -> bool
        requires place { p < self.now.cluster.places }
        ensures { result ≡ can_work self.now.cluster.coordinator p (host self.now.cluster p) }
    {
        let _count = self.places();
        !self.resting.has(p) && self.can_work(p)
    }

    // The places that rest are noted: those of a set that did before, except a place that is asked.
    pub(crate) fn look_again(&mut self, p: u8, resting: PlaceSet)
        requires others { (q : ℕ) → q ≢ p → has resting q ≡ true
            → can_work self.old.cluster.coordinator q (host self.old.cluster q) ≡ false }
        ensures { self.new ≡ self.old }
    {
        if p >= self.places() {
            return;
        }
        self.resting = if self.can_work(p) {
            resting.without(p)
        } else {
            resting.with(p)
        };
    }

    /// Whether the next work of a place does something: its outcome is neither that it waits nor that it is idle. It
    /// takes no memory, and time in proportion to the batches in the inbox of the place.
    pub fn can_work(&self, p: u8) -> bool
        requires place { p < self.now.cluster.places }
        ensures { result ≡ can_work self.now.cluster.coordinator p (host self.now.cluster p) }
    {
        if is_over(self.coordinator.mode) {
            return false;
        }
        match self.turn_at(p) {
            Turn::Rest => false,
            Turn::Install | Turn::Adopt => true,
            Turn::Act => {
                let view = RoundView {
                    epoch: self.coordinator.epoch,
                    round: self.coordinator.round,
                    parties: self.coordinator.parties(),
                    serial: self.serial,
                    theta: self.theta,
                };
                can_act(&self.hosts[usize::from(p)], p, &view)
            }
            Turn::Rebuild => is_act(self.next_in_rebuild(p)),
        }
    }
}

// Whether a place has something to do in a round.
fn can_act<P: VertexProgram>(slot: &Option<Host<P>>, p: u8, view: &RoundView) -> bool
    ensures { (h : Held P.Value P.Acc) → slot.now ≡ Some h → result ≡ is_act (next_of p view.now h) }
{
    match slot {
        None => false,
        Some(host) => host.can_act(p, view),
    }
}

// Whether what comes next does something.
fn is_act(step: Step) -> bool
    ensures { result ≡ is_act (todo_of step) }
{
    match step {
        Step::Wait(_, _) | Step::Rest => false,
        _ => true,
    }
}
