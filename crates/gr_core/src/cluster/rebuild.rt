ghost use Rattle.std.specs.Prelude.{◌≡◌, ◌<◌, ◌-◌, ◌^◌, true, false, length, get_or, set, None, Some, IfSome, IfOk};
ghost use Rattle.std.specs.Prelude.{IsOk, IsTrue, OnOk, OnErr};
ghost use Rattle.gr_base.specs.Places.{without_place};
ghost use Rattle.gr_batch.specs.Stages.{is_end};
ghost use Rattle.gr_sched.specs.declared.event.Event.TheVariants as event;
ghost use Rattle.gr_view.specs.Modes.{is_over};
ghost use Rattle.gr_log.specs.Bytes.{size_of};
ghost use Rattle.gr_log.specs.Log.{with_records};
ghost use Rattle.gr_rules.specs.Taken.{log_at};
ghost use Rattle.gr_rules.specs.AtPlace.{due_count};
ghost use Rattle.gr_rules.specs.Todo.{Todo};
ghost use Rattle.gr_round.specs.Todo.{todo_of, place_to, todo_in_rebuild};
ghost use Rattle.gr_rebuild.specs.Ending.{IsAllCommitted};
ghost use Rattle.gr_cluster.specs.Tables.{Host as Held, host};
ghost use Rattle.gr_cluster.specs.Work.{exchange_of, computed_host};
ghost use Rattle.gr_cluster.specs.Step.{step};
ghost use Rattle.gr_law_work.specs.AtPlace.{place_in, ReadyToRebuild, rows_after, arcs_after, body_after, appended_by};
ghost use Rattle.gr_core.specs.declared.turn.Turn.TheVariants as turn;
ghost use Rattle.gr_core.specs.Steps.{takes_memory};
ghost use Rattle.gr_core.specs.Turns.{turn_of};
ghost use Rattle.gr_core.specs.Rebuilds.{HasToDo};

use crate::cluster::Cluster;
use crate::cluster::retired::{edges_of, keep_retired};
use crate::cluster::work::send;
use crate::host::Host;
use crate::turn::is_repair;
use gr_base::{Items, OutOfMemory, PlaceSet};
use gr_batch::{Batch, Body, Outcome, Stage};
use gr_copies::RebuildView;
use gr_log::EdgeLog;
use gr_migrate::LoggedEdge;
use gr_program::VertexProgram;
use gr_rebuild::PlaceInRebuild;
use gr_round::{Step, others_of};
use std::alloc::Global;

impl<P: VertexProgram> Cluster<P> {
    // A place does what comes next in a rebuild.
    pub(crate) fn rebuild_at(&mut self, p: u8) -> Result<Outcome<P::Value, P::Acc>, OutOfMemory>
        requires place { p < self.old.cluster.places }
        requires going { is_over self.old.cluster.coordinator.mode ≡ false }
        requires turn { turn_of self.old.cluster.coordinator (host self.old.cluster p) ≡ turn.Rebuild }
        requires flight { length self.old.cluster.flight < 2 ^ 32 - 1 }
        requires serial { self.old.cluster.serial < 2 ^ 64 - 1 }
        ensures ok { IfOk result (λ outcome. (self.new.cluster, outcome)
            ≡ step (P.program_of self.old.program) self.old.cluster (event.Work p)) }
        ensures program { self.new.program ≡ self.old.program }
        ensures err { OnErr result (self.new ≡ self.old) }
        ensures told { takes_memory (event.Work p)
            (step (P.program_of self.old.program) self.old.cluster (event.Work p)).1 ≡ false → IsOk result }
    {
        match self.next_in_rebuild(p) {
            Step::Compute => self.compute_at(p),
            Step::Send(to) => self.send_at(p, to),
            Step::Append => self.append_at(p),
            Step::Report => Ok(self.report_at(p)),
            Step::Wait(stage, from) => Ok(Outcome::Waiting(stage, from)),
            Step::Rest => Ok(Outcome::Idle),
        }
    }

    // What a place does next in a rebuild.
    pub(crate) fn next_in_rebuild(&self, p: u8) -> Step
        requires place { p < self.now.cluster.places }
        requires going { is_over self.now.cluster.coordinator.mode ≡ false }
        requires turn { turn_of self.now.cluster.coordinator (host self.now.cluster p) ≡ turn.Rebuild }
        ensures next { HasToDo self.now.cluster p (todo_of result) }
        ensures place { place_to result < 64 }
    {
        let parties = self.coordinator.parties();
        next_in_rebuild(&self.hosts[usize::from(p)], p, parties)
    }

    // What a place goes by in a rebuild.
    fn place_in_rebuild(&self, p: u8) -> PlaceInRebuild
        ensures { result ≡ place_in (P.program_of self.now.program) self.now.cluster p }
    {
        let coordinator = self.coordinator;
        PlaceInRebuild {
            place: p,
            epoch: coordinator.epoch,
            others: others_of(coordinator.parties(), p),
            repair: is_repair(coordinator.mode),
            view: RebuildView {
                live: coordinator.live,
                dead: coordinator.dead,
                reborn: coordinator.reborn,
                places: self.places,
                theta: self.theta,
                losses: self.losses,
                forgetful: P::FORGETFUL,
            },
        }
    }

    // A place computes the next stage of a rebuild.
    fn compute_at(&mut self, p: u8) -> Result<Outcome<P::Value, P::Acc>, OutOfMemory>
        requires place { p < self.old.cluster.places }
        requires next { HasToDo self.old.cluster p Todo.Compute }
        ensures ok { IfOk result (λ outcome. (self.new.cluster, outcome)
            ≡ step (P.program_of self.old.program) self.old.cluster (event.Work p)) }
        ensures program { self.new.program ≡ self.old.program }
        ensures err { OnErr result (self.new ≡ self.old) }
    {
        let place = self.place_in_rebuild(p);
        self.kept.forget_all();
        self.resting = PlaceSet::none();
        let logs = self.logs.as_slice();
        keep_retired(self.alloc, &mut self.retired, logs, &place.view)?;
        let retired = edges_of(&self.retired);
        let stage = compute(self.alloc, &mut self.hosts, retired, &place)?;
        Ok(Outcome::Computed(stage))
    }

    // A place sends the batch of a stage of a rebuild to the place `to`.
    fn send_at(&mut self, p: u8, to: u8) -> Result<Outcome<P::Value, P::Acc>, OutOfMemory>
        requires place { p < self.old.cluster.places }
        requires next { HasToDo self.old.cluster p (Todo.Send to) }
        requires flight { length self.old.cluster.flight < 2 ^ 32 - 1 }
        requires serial { self.old.cluster.serial < 2 ^ 64 - 1 }
        ensures ok { IfOk result (λ outcome. (self.new.cluster, outcome)
            ≡ step (P.program_of self.old.program) self.old.cluster (event.Work p)) }
        ensures program { self.new.program ≡ self.old.program }
        ensures err { OnErr result (self.new ≡ self.old) }
    {
        let place = self.place_in_rebuild(p);
        let logs = self.logs.as_slice();
        keep_retired(self.alloc, &mut self.retired, logs, &place.view)?;
        let retired = edges_of(&self.retired);
        let host = &self.hosts[usize::from(p)];
        let body = body_to(self.alloc, host, retired, &place, to)?;
        let batch = Batch {
            serial: self.serial,
            epoch: self.coordinator.epoch,
            round: self.coordinator.round,
            sender: p,
            receiver: to,
            body,
        };
        let parties = self.coordinator.parties();
        self.kept.forget_all();
        self.resting = PlaceSet::none();
        send(
            &mut self.hosts,
            &mut self.flight,
            &mut self.serial,
            p,
            parties,
            batch,
        )
    }

    // A place appends to its log what is granted to it and what it takes over.
    fn append_at(&mut self, p: u8) -> Result<Outcome<P::Value, P::Acc>, OutOfMemory>
        requires place { p < self.old.cluster.places }
        requires next { HasToDo self.old.cluster p Todo.Append }
        ensures ok { IfOk result (λ outcome. (self.new.cluster, outcome)
            ≡ step (P.program_of self.old.program) self.old.cluster (event.Work p)) }
        ensures program { self.new.program ≡ self.old.program }
        ensures err { OnErr result (self.new ≡ self.old) }
    {
        let place = self.place_in_rebuild(p);
        self.kept.forget_all();
        self.resting = PlaceSet::none();
        let logs = self.logs.as_slice();
        keep_retired(self.alloc, &mut self.retired, logs, &place.view)?;
        let retired = edges_of(&self.retired);
        let bytes = append(self.alloc, &mut self.hosts, &mut self.logs, retired, &place)?;
        Ok(Outcome::Appended(bytes))
    }

    // A place reports to the coordinator at the end of a rebuild.
    fn report_at(&mut self, p: u8) -> Outcome<P::Value, P::Acc>
        requires place { p < self.old.cluster.places }
        requires next { HasToDo self.old.cluster p Todo.Report }
        ensures step { (self.new.cluster, result)
            ≡ step (P.program_of self.old.program) self.old.cluster (event.Work p) }
        ensures program { self.new.program ≡ self.old.program }
    {
        self.kept.forget_all();
        self.resting = PlaceSet::none();
        let due = report(&mut self.hosts, p);
        self.coordinator.report(p, due);
        Outcome::Ready(due)
    }
}

// What a place does next in a rebuild.
fn next_in_rebuild<P: VertexProgram>(slot: &Option<Host<P>>, p: u8, parties: PlaceSet) -> Step
    ensures next { (h : Held P.Value P.Acc) → slot.now ≡ Some h
        → todo_of result ≡ todo_in_rebuild h.inbox h.epoch (without_place parties p)
        (exchange_of h) h.appended h.reported }
    ensures place { place_to result < 64 }
{
    match slot {
        None => Step::Rest,
        Some(host) => host.next_in_rebuild(p, parties),
    }
}

// A place computes the next stage of a rebuild.
fn compute<P: VertexProgram>(
    alloc: Global,
    hosts: &mut Vec<Option<Host<P>>>,
    retired: &[LoggedEdge],
    place: &PlaceInRebuild,
) -> Result<Stage, OutOfMemory>
    requires place { place.now.place < length hosts.old.items }
    requires ready { IfSome (get_or hosts.old.items place.now.place None)
        (λ h. ReadyToRebuild place.now retired.now h) }
    requires fresh { IfSome (get_or hosts.old.items place.now.place None) (λ h. h.computed ≡ false) }
    ensures stage { (h : Held P.Value P.Acc) → get_or hosts.old.items place.now.place None ≡ Some h
        → IfOk result (λ stage. stage ≡ h.stage) }
    ensures hosts { (h : Held P.Value P.Acc) → get_or hosts.old.items place.now.place None ≡ Some h
        → OnOk result (hosts.new.items ≡ set hosts.old.items place.now.place
        (Some (computed_host place.now.others (rows_after place.now retired.now h h.stage)
        (arcs_after place.now retired.now h h.stage) h))) }
    ensures err { OnErr result (hosts.new.items ≡ hosts.old.items) }
{
    match &mut hosts[usize::from(place.place)] {
        None => Ok(Stage::Ask),
        Some(host) => host.compute_in_rebuild(alloc, place, retired),
    }
}

// The body of the stage of a rebuild to the place `to`.
fn body_to<P: VertexProgram>(
    alloc: Global,
    slot: &Option<Host<P>>,
    retired: &[LoggedEdge],
    place: &PlaceInRebuild,
    to: u8,
) -> Result<Body<P::Value, P::Acc>, OutOfMemory>
    requires { IfSome slot.now (λ h. ReadyToRebuild place.now retired.now h) }
    ensures { (h : Held P.Value P.Acc) → slot.now ≡ Some h
        → IfOk result (λ body. body ≡ body_after place.now retired.now h to h.stage) }
{
    match slot {
        None => Ok(Body::Ask(Items::new(alloc))),
        Some(host) => host.body_in_rebuild(alloc, place, retired, to),
    }
}

// A place appends to its log what is granted to it and what it takes over. It gives the number of bytes.
fn append<P: VertexProgram>(
    alloc: Global,
    hosts: &mut Vec<Option<Host<P>>>,
    logs: &mut Vec<EdgeLog>,
    retired: &[LoggedEdge],
    place: &PlaceInRebuild,
) -> Result<u64, OutOfMemory>
    requires place { place.now.place < length hosts.old.items }
    requires logged { place.now.place < length logs.old.items }
    requires ready { IfSome (get_or hosts.old.items place.now.place None)
        (λ h. ReadyToRebuild place.now retired.now h) }
    requires committed { IsAllCommitted (log_at logs.old.items place.now.place) }
    ensures bytes { (h : Held P.Value P.Acc) → get_or hosts.old.items place.now.place None ≡ Some h
        → IfOk result (λ bytes. bytes ≡ size_of (appended_by place.now retired.now h)) }
    ensures logs { (h : Held P.Value P.Acc) → get_or hosts.old.items place.now.place None ≡ Some h
        → OnOk result (logs.new.items ≡ set logs.old.items place.now.place
        (with_records (appended_by place.now retired.now h) (log_at logs.old.items place.now.place))) }
    ensures hosts { (h : Held P.Value P.Acc) → get_or hosts.old.items place.now.place None ≡ Some h
        → OnOk result (hosts.new.items ≡ set hosts.old.items place.now.place (Some (record h { appended = true }))) }
    ensures logs_kept { OnErr result (logs.new.items ≡ logs.old.items) }
    ensures hosts_kept { OnErr result (hosts.new.items ≡ hosts.old.items) }
{
    match &mut hosts[usize::from(place.place)] {
        None => Ok(0),
        Some(host) => host.append_in_rebuild(alloc, place, retired, logs),
    }
}

// A place reports. It gives how many vertices that it masters are due.
fn report<P: VertexProgram>(hosts: &mut Vec<Option<Host<P>>>, p: u8) -> u32
    requires place { p < length hosts.old.items }
    requires computed { IfSome (get_or hosts.old.items p None) (λ h. IsTrue h.computed) }
    requires end { IfSome (get_or hosts.old.items p None) (λ h. IsTrue (is_end h.stage)) }
    ensures hosts { (h : Held P.Value P.Acc) → get_or hosts.old.items p None ≡ Some h
        → hosts.new.items ≡ set hosts.old.items p (Some (record h { reported = true })) }
    ensures due { (h : Held P.Value P.Acc) → get_or hosts.old.items p None ≡ Some h → result ≡ due_count p h.pending }
{
    match &mut hosts[usize::from(p)] {
        None => 0,
        Some(host) => host.report(p),
    }
}
