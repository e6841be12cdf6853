ghost use Rattle.std.specs.Prelude.{◌≡◌, ℕ, List, IsSome, ◌<◌, ◌-◌, ◌+◌, ◌^◌, false, ◌∷◌, [], ◌++◌, length, get_or};
ghost use Rattle.std.specs.Prelude.{set, option_map, None, Some, IfOk, IsOk, OnOk, OnErr, IfSome, IsTrue, not};
ghost use Rattle.gr_base.specs.Places.{without_place};
ghost use Rattle.gr_batch.specs.Bodies.{stage_of_body};
ghost use Rattle.gr_batch.specs.declared.outcome.Outcome.TheVariants as outcome;
ghost use Rattle.gr_sched.specs.declared.event.Event.TheVariants as event;
ghost use Rattle.gr_view.specs.declared.coordinator.Mode.{Mode};
ghost use Rattle.gr_view.specs.Modes.{is_over, is_rebuild};
ghost use Rattle.gr_log.specs.Log.{Log, cut_log};
ghost use Rattle.gr_rules.specs.Taken.{log_at};
ghost use Rattle.gr_rules.specs.Exchange.{unsent};
ghost use Rattle.gr_round.specs.Todo.{is_told};
ghost use Rattle.gr_view.specs.Decisions.{parties};
ghost use Rattle.gr_cluster.specs.Tables.{Host as Held, host};
ghost use Rattle.gr_cluster.specs.Todo.{todo};
ghost use Rattle.gr_cluster.specs.Work.{installed_host, adopted_host, sent_host, worked};
ghost use Rattle.gr_cluster.specs.Step.{step};
ghost use Rattle.gr_core.specs.declared.turn.Turn.TheVariants as turn;
ghost use Rattle.gr_round.specs.Kept.{takes_targets};
ghost use Rattle.gr_core.specs.Targets.{TargetsFit, AreKept, AreKeptFor, StandAsBefore};
ghost use Rattle.gr_core.specs.Steps.{next_of, answer_of, acted_host, takes_memory};
ghost use Rattle.gr_core.specs.Turns.{turn_of};
ghost use Rattle.gr_core.specs.Works.{NeedsHold, MaySend, MayWork, cluster_of};

use crate::cluster::Cluster;
use crate::host::Host;
use crate::targets::KeptTargets;
use crate::turn::{Turn, is_rebuild};
use gr_base::{OutOfMemory, PlaceSet};
use gr_batch::{Batch, Outcome, stage_of};
use gr_flight::Flight;
use gr_log::EdgeLog;
use gr_program::VertexProgram;
use gr_round::{Act, RoundView};
use gr_signal::Targets;
use gr_view::Coordinator;
use std::alloc::Global;

impl<P: VertexProgram> Cluster<P> {
    // What comes next at a place is done there, and it is looked whether there is more.
    pub(crate) fn work(&mut self, p: u8) -> Result<Outcome<P::Value, P::Acc>, OutOfMemory>
        requires place { p < self.old.cluster.places }
        requires going { is_over self.old.cluster.coordinator.mode ≡ false }
        requires flight { length self.old.cluster.flight < 2 ^ 32 - 1 }
        requires serial { self.old.cluster.serial < 2 ^ 64 - 1 }
        ensures ok { IfOk result (λ outcome. (self.new.cluster, outcome)
            ≡ step (P.program_of self.old.program) self.old.cluster (event.Work p)) }
        ensures program { self.new.program ≡ self.old.program }
        ensures err { OnErr result (self.new ≡ self.old) }
        ensures told { takes_memory (event.Work p)
            (step (P.program_of self.old.program) self.old.cluster (event.Work p)).1 ≡ false → IsOk result }
    {
        let resting = self.resting;
        let outcome = self.work_at(p)?;
        self.look_again(p, resting);
        Ok(outcome)
    }

    // What comes next at a place is done there.
    fn work_at(&mut self, p: u8) -> Result<Outcome<P::Value, P::Acc>, OutOfMemory>
        requires place { p < self.old.cluster.places }
        requires going { is_over self.old.cluster.coordinator.mode ≡ false }
        requires flight { length self.old.cluster.flight < 2 ^ 32 - 1 }
        requires serial { self.old.cluster.serial < 2 ^ 64 - 1 }
        ensures ok { IfOk result (λ outcome. (self.new.cluster, outcome)
            ≡ step (P.program_of self.old.program) self.old.cluster (event.Work p)) }
        ensures program { self.new.program ≡ self.old.program }
        ensures err { OnErr result (self.new ≡ self.old) }
        ensures told { takes_memory (event.Work p)
            (step (P.program_of self.old.program) self.old.cluster (event.Work p)).1 ≡ false → IsOk result }
    {
        match self.turn_at(p) {
            Turn::Rest => Ok(self.rest_at(p)),
            Turn::Install => Ok(self.install_at(p)),
            Turn::Adopt => Ok(self.adopt_at(p)),
            Turn::Act => self.act_at(p),
            Turn::Rebuild => self.rebuild_at(p),
        }
    }

    // Which part of its work comes next at a place.
    pub(crate) fn turn_at(&self, p: u8) -> Turn
        requires { p < self.now.cluster.places }
        ensures { result ≡ turn_of self.now.cluster.coordinator (host self.now.cluster p) }
    {
        let _count = self.places();
        turn_of(&self.coordinator, &self.hosts[usize::from(p)])
    }

    // A place does nothing: its machine is down, or it waits for a recovery.
    fn rest_at(&self, p: u8) -> Outcome<P::Value, P::Acc>
        requires going { is_over self.now.cluster.coordinator.mode ≡ false }
        requires turn { turn_of self.now.cluster.coordinator (host self.now.cluster p) ≡ turn.Rest }
        ensures { (self.now.cluster, result) ≡ step (P.program_of self.now.program) self.now.cluster (event.Work p) }
    {
        // A look into the cluster tells what it keeps.
        let _mode = self.coordinator.mode;
        Outcome::Idle
    }

    // A place installs what is pending.
    fn install_at(&mut self, p: u8) -> Outcome<P::Value, P::Acc>
        requires place { p < self.old.cluster.places }
        requires going { is_over self.old.cluster.coordinator.mode ≡ false }
        requires turn { turn_of self.old.cluster.coordinator (host self.old.cluster p) ≡ turn.Install }
        ensures step { (self.new.cluster, result)
            ≡ step (P.program_of self.old.program) self.old.cluster (event.Work p) }
        ensures program { self.new.program ≡ self.old.program }
    {
        self.kept.forget_all();
        self.resting = PlaceSet::none();
        Outcome::Installed(install(&mut self.hosts, p))
    }

    // A place adopts the epoch of the coordinator.
    fn adopt_at(&mut self, p: u8) -> Outcome<P::Value, P::Acc>
        requires place { p < self.old.cluster.places }
        requires going { is_over self.old.cluster.coordinator.mode ≡ false }
        requires turn { turn_of self.old.cluster.coordinator (host self.old.cluster p) ≡ turn.Adopt }
        ensures step { (self.new.cluster, result)
            ≡ step (P.program_of self.old.program) self.old.cluster (event.Work p) }
        ensures program { self.new.program ≡ self.old.program }
    {
        self.kept.forget_all();
        self.resting = PlaceSet::none();
        let rebuild = is_rebuild(self.coordinator.mode);
        adopt(&mut self.hosts, p, self.coordinator.epoch, rebuild);
        cut_tail(&mut self.logs, p);
        Outcome::Adopted(self.coordinator.epoch)
    }

    // A place does what comes next in the round.
    fn act_at(&mut self, p: u8) -> Result<Outcome<P::Value, P::Acc>, OutOfMemory>
        requires place { p < self.old.cluster.places }
        requires going { is_over self.old.cluster.coordinator.mode ≡ false }
        requires turn { turn_of self.old.cluster.coordinator (host self.old.cluster p) ≡ turn.Act }
        requires flight { length self.old.cluster.flight < 2 ^ 32 - 1 }
        requires serial { self.old.cluster.serial < 2 ^ 64 - 1 }
        ensures ok { IfOk result (λ outcome. (self.new.cluster, outcome)
            ≡ step (P.program_of self.old.program) self.old.cluster (event.Work p)) }
        ensures program { self.new.program ≡ self.old.program }
        ensures err { OnErr result (self.new ≡ self.old) }
        ensures told { takes_memory (event.Work p)
            (step (P.program_of self.old.program) self.old.cluster (event.Work p)).1 ≡ false → IsOk result }
    {
        self.resting = PlaceSet::none();
        self.retired = None;
        act_in_round(
            self.alloc,
            &mut self.hosts,
            &mut self.kept,
            &mut self.flight,
            &mut self.serial,
            &mut self.coordinator,
            self.theta,
            &self.program,
            p,
        )
    }
}

// Which part of its work comes next at a place.
fn turn_of<P: VertexProgram>(coordinator: &Coordinator, slot: &Option<Host<P>>) -> Turn
    ensures { result ≡ turn_of coordinator.now slot.now }
{
    match slot {
        None => Turn::Rest,
        Some(host) => host.turn(coordinator),
    }
}

// What is pending at a place takes effect. It gives how many commits are installed then.
fn install<P: VertexProgram>(hosts: &mut Vec<Option<Host<P>>>, p: u8) -> u64
    requires place { p < length hosts.old.items }
    requires room { IfSome (get_or hosts.old.items p None) (λ h. h.installed < 2 ^ 64 - 1) }
    ensures hosts { hosts.new.items ≡ set hosts.old.items p
        (option_map installed_host (get_or hosts.old.items p None)) }
    ensures count { (h : Held P.Value P.Acc) → get_or hosts.old.items p None ≡ Some h → result ≡ h.installed + 1 }
{
    match &mut hosts[usize::from(p)] {
        None => 0,
        Some(host) => host.install(),
    }
}

// A place adopts a new epoch, in which a rebuild is open or none.
fn adopt<P: VertexProgram>(hosts: &mut Vec<Option<Host<P>>>, p: u8, epoch: u64, rebuild: bool)
    requires { p < length hosts.old.items }
    ensures { (m : Mode) → is_rebuild m ≡ rebuild
        → hosts.new.items ≡ set hosts.old.items p (option_map (adopted_host epoch m) (get_or hosts.old.items p None)) }
{
    match &mut hosts[usize::from(p)] {
        None => {}
        Some(host) => host.adopt(epoch, rebuild),
    }
}

// The log of a place loses what is not committed.
fn cut_tail(logs: &mut Vec<EdgeLog>, p: u8)
    requires { p < length logs.old.items }
    ensures { logs.new.items ≡ set logs.old.items p (cut_log (log_at logs.old.items p)) }
{
    logs[usize::from(p)].cut_tail();
}

// A place that has adopted the epoch of a round does what comes next there.
fn act_in_round<P: VertexProgram>(
    alloc: Global,
    hosts: &mut Vec<Option<Host<P>>>,
    kept: &mut KeptTargets,
    flight: &mut Flight<P::Value, P::Acc>,
    serial: &mut u64,
    coordinator: &mut Coordinator,
    theta: u32,
    program: &P,
    p: u8,
) -> Result<Outcome<P::Value, P::Acc>, OutOfMemory>
    requires place { p < length hosts.old.items }
    requires few { p < 64 }
    requires may { (h : Held P.Value P.Acc) → get_or hosts.old.items p None ≡ Some h
        → MayWork (P.program_of program.now) coordinator.old p h }
    requires up { IsSome (get_or hosts.old.items p None) }
    requires room { length flight.old < 2 ^ 32 - 1 }
    requires serial { serial.old < 2 ^ 64 - 1 }
    requires targets { TargetsFit (P.program_of program.now) coordinator.old.epoch (parties coordinator.old)
        hosts.old.items kept.old }
    ensures targets { TargetsFit (P.program_of program.now) coordinator.old.epoch (parties coordinator.old)
        hosts.old.items kept.new }
    ensures stand { StandAsBefore hosts.old.items hosts.new.items }
    ensures epoch { coordinator.new.epoch ≡ coordinator.old.epoch }
    ensures parties { parties coordinator.new ≡ parties coordinator.old }
    ensures ok { (logs : List Log) (places losses : ℕ) (h : Held P.Value P.Acc)
        → get_or hosts.old.items p None ≡ Some h
        → IfOk result (λ outcome.
        (cluster_of hosts.new.items logs flight.new serial.new coordinator.new places losses theta, outcome)
        ≡ worked (P.program_of program.now)
        (cluster_of hosts.old.items logs flight.old serial.old coordinator.old places losses theta)
        p h (todo coordinator.old p h)) }
    ensures told { (h : Held P.Value P.Acc) → get_or hosts.old.items p None ≡ Some h
        → IsTrue (is_told (todo coordinator.old p h)) → IsOk result }
    ensures hosts_kept { OnErr result (hosts.new.items ≡ hosts.old.items) }
    ensures flight_kept { OnErr result (flight.new ≡ flight.old) }
    ensures serial_kept { OnErr result (serial.new ≡ serial.old) }
    ensures coordinator_kept { OnErr result (coordinator.new ≡ coordinator.old) }
{
    let view = RoundView {
        epoch: coordinator.epoch,
        round: coordinator.round,
        parties: coordinator.parties(),
        serial: *serial,
        theta,
    };
    keep_targets(alloc, hosts.as_slice(), kept, p, &view, program)?;
    match act(alloc, hosts, kept.at(p), p, &view, program)? {
        Act::Computed(stage) => Ok(Outcome::Computed(stage)),
        Act::Sent(batch) => send(hosts, flight, serial, p, view.parties, batch),
        Act::Ready(due) => {
            coordinator.report(p, due);
            Ok(Outcome::Ready(due))
        }
        Act::Waiting(stage, from) => Ok(Outcome::Waiting(stage, from)),
        Act::Rest => Ok(Outcome::Idle),
    }
}

// The batch of the computed stage goes into the flight, and the line of its sender says so.
pub(crate) fn send<P: VertexProgram>(
    hosts: &mut Vec<Option<Host<P>>>,
    flight: &mut Flight<P::Value, P::Acc>,
    serial: &mut u64,
    p: u8,
    parties: PlaceSet,
    batch: Batch<P::Value, P::Acc>,
) -> Result<Outcome<P::Value, P::Acc>, OutOfMemory>
    requires place { p < length hosts.old.items }
    requires line { IfSome (get_or hosts.old.items p None) (λ h. MaySend (without_place parties p) h) }
    requires room { length flight.old < 2 ^ 32 - 1 }
    requires serial { serial.old < 2 ^ 64 - 1 }
    ensures ok { IfOk result (λ told. told ≡ outcome.Sent serial.old (stage_of_body batch.body) batch.receiver) }
    ensures hosts { OnOk result ((h : Held P.Value P.Acc) (q : ℕ) → get_or hosts.old.items p None ≡ Some h
        → unsent (without_place parties p) h.sent ≡ Some q
        → hosts.new.items ≡ set hosts.old.items p (Some (sent_host (without_place parties p) q h))) }
    ensures flight { OnOk result (flight.new ≡ flight.old ++ batch ∷ []) }
    ensures serial { OnOk result (serial.new ≡ serial.old + 1) }
    ensures stand { StandAsBefore hosts.old.items hosts.new.items }
    ensures hosts_kept { OnErr result (hosts.new.items ≡ hosts.old.items) }
    ensures flight_kept { OnErr result (flight.new ≡ flight.old) }
    ensures serial_kept { OnErr result (serial.new ≡ serial.old) }
{
    let sent = *serial;
    let stage = stage_of(&batch);
    let receiver = batch.receiver;
    flight.send(batch)?;
    note_sent(&mut hosts[usize::from(p)], p, parties);
    *serial = sent + 1;
    Ok(Outcome::Sent(sent, stage, receiver))
}

fn note_sent<P: VertexProgram>(slot: &mut Option<Host<P>>, p: u8, parties: PlaceSet)
    requires { IfSome slot.old (λ h. MaySend (without_place parties p) h) }
    ensures sent { (h : Held P.Value P.Acc) (q : ℕ) → slot.old ≡ Some h
        → unsent (without_place parties p) h.sent ≡ Some q → slot.new ≡ Some (sent_host (without_place parties p) q h) }
    ensures none { slot.old ≡ None → slot.new ≡ None }
{
    match slot {
        None => {}
        Some(host) => host.note_sent(p, parties),
    }
}

// The targets of what woke at a place are worked out and kept, if what comes next there takes them.
fn keep_targets<P: VertexProgram>(
    alloc: Global,
    hosts: &[Option<Host<P>>],
    kept: &mut KeptTargets,
    p: u8,
    view: &RoundView,
    program: &P,
) -> Result<(), OutOfMemory>
    requires place { p < length hosts.now }
    requires few { p < 64 }
    requires needs { IfSome (get_or hosts.now p None) (λ h. NeedsHold (P.program_of program.now) p view.now h) }
    requires targets { TargetsFit (P.program_of program.now) view.now.epoch view.now.parties hosts.now kept.old }
    ensures targets { TargetsFit (P.program_of program.now) view.now.epoch view.now.parties hosts.now kept.new }
    ensures kept { OnOk result (AreKept (P.program_of program.now) view.now p hosts.now (get_or kept.new p None)) }
    ensures ok { (h : Held P.Value P.Acc) → get_or hosts.now p None ≡ Some h
        → takes_targets h.stage (next_of p view.now h) ≡ false → IsOk result }
{
    let Some(host) = &hosts[usize::from(p)] else {
        return Ok(());
    };
    if kept.at(p).is_none() && host.takes_targets(p, view) {
        let targets = host.targets(alloc, p, view, program)?;
        kept.keep(p, targets);
    }
    Ok(())
}

// A place does what comes next in a round, and answers it.
fn act<P: VertexProgram>(
    alloc: Global,
    hosts: &mut Vec<Option<Host<P>>>,
    kept: &Option<Targets>,
    p: u8,
    view: &RoundView,
    program: &P,
) -> Result<Act<P::Value, P::Acc>, OutOfMemory>
    requires place { p < length hosts.old.items }
    requires needs { IfSome (get_or hosts.old.items p None) (λ h. NeedsHold (P.program_of program.now) p view.now h) }
    requires kept { AreKept (P.program_of program.now) view.now p hosts.old.items kept.now }
    ensures answer { (h : Held P.Value P.Acc) → get_or hosts.old.items p None ≡ Some h
        → IfOk result (λ act. act ≡ answer_of (P.program_of program.now) p view.now h (next_of p view.now h)) }
    ensures hosts { (h : Held P.Value P.Acc) → get_or hosts.old.items p None ≡ Some h
        → OnOk result (hosts.new.items
        ≡ set hosts.old.items p (Some (acted_host (P.program_of program.now) p view.now h (next_of p view.now h)))) }
    ensures stand { StandAsBefore hosts.old.items hosts.new.items }
    ensures told { (h : Held P.Value P.Acc) → get_or hosts.old.items p None ≡ Some h
        → IsTrue (is_told (next_of p view.now h)) → IsOk result }
    ensures err { OnErr result (hosts.new.items ≡ hosts.old.items) }
{
    match &mut hosts[usize::from(p)] {
        None => Ok(Act::Rest),
        Some(host) => act_with(alloc, host, kept, p, view, program),
    }
}

// A host does what comes next in a round with the targets that are kept, and answers it.
fn act_with<P: VertexProgram>(
    alloc: Global,
    host: &mut Host<P>,
    kept: &Option<Targets>,
    p: u8,
    view: &RoundView,
    program: &P,
) -> Result<Act<P::Value, P::Acc>, OutOfMemory>
    requires needs { NeedsHold (P.program_of program.now) p view.now host.old }
    requires kept { AreKeptFor (P.program_of program.now) view.now p host.old kept.now }
    ensures answer { IfOk result (λ act. act
        ≡ answer_of (P.program_of program.now) p view.now host.old (next_of p view.now host.old)) }
    ensures host { OnOk result (host.new
        ≡ acted_host (P.program_of program.now) p view.now host.old (next_of p view.now host.old)) }
    ensures told { IsTrue (is_told (next_of p view.now host.old)) → IsOk result }
    ensures err { OnErr result (host.new ≡ host.old) }
{
    match kept {
        Some(targets) => host.act(alloc, p, view, program, targets),
        None => {
            let none = Targets::none(alloc);
            host.act(alloc, p, view, program, &none)
        }
    }
}
