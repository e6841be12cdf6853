ghost use Rattle.std.specs.Prelude.{◌≡◌, ◌≢◌, ℕ, false, get_or, set, remove, slice_get, option_map, Some, None, IfOk};
ghost use Rattle.std.specs.Prelude.{OnOk, OnErr};
ghost use Rattle.std.specs.List.{list_any};
ghost use Rattle.gr_batch.specs.declared.batch.Batch.{Batch};
ghost use Rattle.gr_batch.specs.declared.outcome.Outcome.TheVariants as outcome;
ghost use Rattle.gr_batch.specs.Bodies.{is_of, stage_of_body};
ghost use Rattle.gr_sched.specs.declared.event.Event.TheVariants as event;
ghost use Rattle.gr_view.specs.Modes.{is_over};
ghost use Rattle.gr_cluster.specs.Tables as cluster;
ghost use Rattle.gr_cluster.specs.Tables.{inbox_of};
ghost use Rattle.gr_cluster.specs.Network.{fate_at, received, delivered};
ghost use Rattle.gr_cluster.specs.Step.{step};
ghost use Rattle.gr_core.specs.Targets.{forgotten};
ghost use Rattle.gr_core.specs.Steps.{may_drop};

use crate::cluster::Cluster;
use crate::host::Host;
use crate::targets::KeptTargets;
use gr_base::{OutOfMemory, PlaceSet};
use gr_batch::{Batch, Fate, Outcome, stage_of};
use gr_flight::Flight;
use gr_program::{Datum, VertexProgram};
use gr_round::is_of_targets;
use std::alloc::Global;

impl<P: VertexProgram> Cluster<P> {
    // Batch `i` in flight comes to its receiver.
    pub(crate) fn deliver(&mut self, i: u32) -> Result<Outcome<P::Value, P::Acc>, OutOfMemory>
        requires { is_over self.old.cluster.coordinator.mode ≡ false }
        ensures ok { IfOk result (λ outcome. (self.new.cluster, outcome)
            ≡ step (P.program_of self.old.program) self.old.cluster (event.Deliver i)) }
        ensures program { self.new.program ≡ self.old.program }
        ensures err { OnErr result (self.new ≡ self.old) }
    {
        let resting = self.resting;
        let receiver = self.receiver_of(i);
        let outcome = self.deliver_batch(i)?;
        if let Some(p) = receiver {
            self.look_again(p, resting);
        }
        Ok(outcome)
    }

    // The place to which batch `i` in flight goes.
    fn receiver_of(&self, i: u32) -> Option<u8>
        ensures { result ≡ option_map (λ b. b.receiver) (slice_get self.now.cluster.flight i) }
    {
        self.flight.peek(i).map(|batch| batch.receiver)
    }

    // Batch `i` in flight comes to its receiver, where the targets are forgotten if they depend on it.
    fn deliver_batch(&mut self, i: u32) -> Result<Outcome<P::Value, P::Acc>, OutOfMemory>
        requires { is_over self.old.cluster.coordinator.mode ≡ false }
        ensures ok { IfOk result (λ outcome. (self.new.cluster, outcome)
            ≡ step (P.program_of self.old.program) self.old.cluster (event.Deliver i)) }
        ensures program { self.new.program ≡ self.old.program }
        ensures err { OnErr result (self.new ≡ self.old) }
    {
        forget_receiver(&mut self.kept, &self.flight, i);
        self.resting = PlaceSet::none();
        deliver_from(self.alloc, &mut self.hosts, &mut self.flight, i)
    }

    // Batch `i` in flight is dropped, where it may be.
    pub(crate) fn drop_batch(&mut self, i: u32) -> Outcome<P::Value, P::Acc>
        requires { is_over self.old.cluster.coordinator.mode ≡ false }
        ensures step { (self.new.cluster, result)
            ≡ step (P.program_of self.old.program) self.old.cluster (event.Discarded i) }
        ensures program { self.new.program ≡ self.old.program }
    {
        if self.may_drop(i) {
            self.kept.forget_all();
            self.resting = PlaceSet::none();
            drop_from(&mut self.flight, i)
        } else {
            Outcome::Idle
        }
    }

    // Whether batch `i` in flight may be dropped: it is of an older epoch, or its sender is down.
    fn may_drop(&self, i: u32) -> bool
        ensures { result ≡ may_drop self.now.cluster (slice_get self.now.cluster.flight i) }
    {
        let Some(batch) = self.flight.peek(i) else {
            return false;
        };
        if batch.epoch < self.coordinator.epoch {
            return true;
        }
        match self.hosts.get(usize::from(batch.sender)) {
            Some(Some(_)) => false,
            _ => true,
        }
    }
}

// The targets of the receiver of batch `i` in flight are forgotten, unless batches of its stage are made of targets.
fn forget_receiver<V: Datum, A: Datum>(kept: &mut KeptTargets, flight: &Flight<V, A>, i: u32)
    ensures { kept.new ≡ forgotten (slice_get flight.now i) kept.old }
{
    let Some(batch) = flight.peek(i) else {
        return;
    };
    if !is_of_targets(stage_of(batch)) {
        kept.forget(batch.receiver);
    }
}

// Batch `i` in flight comes to its receiver.
fn deliver_from<P: VertexProgram>(
    alloc: Global,
    hosts: &mut Vec<Option<Host<P>>>,
    flight: &mut Flight<P::Value, P::Acc>,
    i: u32,
) -> Result<Outcome<P::Value, P::Acc>, OutOfMemory>
    requires fresh { (b : Batch P.Value P.Acc) → slice_get flight.old i ≡ Some b
        → list_any (is_of b.sender b.epoch (stage_of_body b.body)) (inbox_of (get_or hosts.old.items b.receiver None))
        ≡ false }
    ensures ok { IfOk result (λ outcome. (c : cluster.Cluster P.Value P.Acc) → c.hosts ≡ hosts.old.items
        → c.flight ≡ flight.old
        → (record c { hosts = hosts.new.items; flight = flight.new }, outcome)
        ≡ delivered c i (slice_get flight.old i)) }
    ensures hosts_kept { OnErr result (hosts.new.items ≡ hosts.old.items) }
    ensures flight_kept { OnErr result (flight.new ≡ flight.old) }
{
    let Some(batch) = flight.peek(i) else {
        return Ok(Outcome::Idle);
    };
    let fate = receive(alloc, hosts, batch)?;
    match flight.take(i) {
        Some(batch) => Ok(Outcome::Delivered(batch, fate)),
        None => Ok(Outcome::Idle),
    }
}

// Batch `i` in flight is dropped.
fn drop_from<V: Datum, A: Datum>(flight: &mut Flight<V, A>, i: u32) -> Outcome<V, A>
    ensures flight { flight.new ≡ remove flight.old i }
    ensures outcome { (b : Batch V A) → slice_get flight.old i ≡ Some b → result ≡ outcome.Dropped b.serial }
{
    match flight.take(i) {
        Some(batch) => Outcome::Dropped(batch.serial),
        None => Outcome::Idle,
    }
}

// A batch comes to its receiver, whether its machine is up or down.
fn receive<P: VertexProgram>(
    alloc: Global,
    hosts: &mut Vec<Option<Host<P>>>,
    batch: &Batch<P::Value, P::Acc>,
) -> Result<Fate, OutOfMemory>
    requires fresh { list_any (is_of batch.now.sender batch.now.epoch (stage_of_body batch.now.body))
        (inbox_of (get_or hosts.old.items batch.now.receiver None)) ≡ false }
    ensures fate { IfOk result (λ fate. fate ≡ fate_at batch.now (get_or hosts.old.items batch.now.receiver None)) }
    ensures ok { OnOk result (hosts.new.items
        ≡ set hosts.old.items batch.now.receiver
        (received batch.now (get_or hosts.old.items batch.now.receiver None))) }
    ensures err { OnErr result (hosts.new.items ≡ hosts.old.items) }
{
    let place = usize::from(batch.receiver);
    if place >= hosts.len() {
        return Ok(Fate::Down);
    }
    receive_at(alloc, &mut hosts[place], batch)
}

fn receive_at<P: VertexProgram>(
    alloc: Global,
    slot: &mut Option<Host<P>>,
    batch: &Batch<P::Value, P::Acc>,
) -> Result<Fate, OutOfMemory>
    requires fresh { list_any (is_of batch.now.sender batch.now.epoch (stage_of_body batch.now.body))
        (inbox_of slot.old) ≡ false }
    ensures fate { IfOk result (λ fate. fate ≡ fate_at batch.now slot.old) }
    ensures ok { OnOk result (slot.new ≡ received batch.now slot.old) }
    ensures err { OnErr result (slot.new ≡ slot.old) }
{
    match slot {
        None => Ok(Fate::Down),
        Some(host) => host.receive(alloc, batch),
    }
}
