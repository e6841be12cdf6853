ghost use Rattle.std.specs.Prelude.{◌≡◌, ◌==◌, ◌+◌, ◌-◌, ◌^◌, ◌<◌, false, Some, IfOk, IsOk, OnOk, OnErr, IsTrue};
ghost use Rattle.std.specs.Prelude.{IsSome, IfSome};
ghost use Rattle.std.specs.List.{list_any};
ghost use Rattle.gr_base.specs.Places.{without_place};
ghost use Rattle.gr_batch.specs.declared.stage.Stage.TheVariants as stage;
ghost use Rattle.gr_batch.specs.Bodies.{is_of, stage_of_body};
ghost use Rattle.gr_batch.specs.Stages.{is_end};
ghost use Rattle.gr_view.specs.declared.coordinator.Mode.{Mode};
ghost use Rattle.gr_view.specs.Modes.{is_rebuild};
ghost use Rattle.gr_rules.specs.Exchange.{unsent};
ghost use Rattle.gr_rules.specs.Todo.{is_act};
ghost use Rattle.gr_round.specs.Kept.{takes_targets};
ghost use Rattle.gr_core.specs.Targets.{AreGiven, targets_of};
ghost use Rattle.gr_core.specs.Works.{NeedsHold};
ghost use Rattle.gr_round.specs.Todo.{is_told};
ghost use Rattle.gr_cluster.specs.Load.{fresh_host};
ghost use Rattle.gr_cluster.specs.Work.{first_stage};
ghost use Rattle.gr_cluster.specs.Network.{fate_at, received};
ghost use Rattle.gr_cluster.specs.Work.{installed_host, adopted_host, sent_host};
ghost use Rattle.gr_core.specs.Steps.{next_of, answer_of, acted_host};
ghost use Rattle.gr_core.specs.Tables.{copy_in};
ghost use Rattle.gr_core.specs.Turns.{turn_of};

mod rebuild;
mod values;

use crate::turn::{Turn, turn_in};
use gr_arcs::Arcs;
use gr_base::{OutOfMemory, PlaceSet};
use gr_batch::{Batch, Fate, Stage, copy_of};
use gr_flight::Inbox;
use gr_program::{VertexCopy, VertexProgram};
use gr_round::{Act, Given, PlaceRound, RoundView};
use gr_rows::Rows;
use gr_signal::Targets;
use gr_view::Coordinator;
use std::alloc::Global;
use std::marker::Model;

/// What the machine of a place holds: its copies and edges, the batches that came, the epoch that it has adopted, how
/// many commits it has installed, how far it is in its round or its rebuild, and whether it has appended to its log
/// there.
#[derive(Drop)]
pub struct Host<P: VertexProgram> {
    pub(crate) rows: Rows<P::Value>,
    pub(crate) arcs: Arcs,
    pub(crate) inbox: Inbox<P::Value, P::Acc>,
    pub(crate) epoch: u64,
    pub(crate) installed: u64,
    pub(crate) round: PlaceRound,
    pub(crate) appended: bool,
}

impl<P: VertexProgram> Model for Host<P> {
    ghost use Rattle.gr_cluster.specs.Tables as tables;
    ghost use Rattle.gr_core.specs.Tables.{host_of};

    ghost Value = { tables.Host P.Value P.Acc };

    ghost view = { λ h. host_of h.rows h.arcs h.inbox h.epoch h.installed h.round h.appended };
}

impl<P: VertexProgram> Host<P> {
    // A host that has computed nothing, with these copies and edges.
    pub(crate) fn new(alloc: Global, rows: Rows<P::Value>, arcs: Arcs) -> Host<P>
        requires copies { rows.pending ≡ rows.stable }
        requires edges { arcs.pending ≡ arcs.stable }
        ensures { result ≡ fresh_host rows.stable arcs.stable 0 0 stage.Gather }
    {
        Host {
            rows,
            arcs,
            inbox: Inbox::new(alloc),
            epoch: 0,
            installed: 0,
            round: PlaceRound::new(),
            appended: false,
        }
    }

    // The host of a spare that starts in the place of a dead one, with what its log gave back, in a new epoch of a
    // rebuild and with so many commits installed.
    pub(crate) fn spare(
        alloc: Global,
        rows: Rows<P::Value>,
        arcs: Arcs,
        epoch: u64,
        commits: u64,
    ) -> Host<P>
        requires copies { rows.pending ≡ rows.stable }
        requires edges { arcs.pending ≡ arcs.stable }
        ensures { result ≡ fresh_host rows.stable arcs.stable epoch commits stage.Ask }
    {
        Host {
            rows,
            arcs,
            inbox: Inbox::new(alloc),
            epoch,
            installed: commits,
            round: PlaceRound::before(Stage::Ask),
            appended: false,
        }
    }

    // The effective copy of a vertex, where the cluster has so many commits.
    pub(crate) fn copy_of(&self, commits: u64, v: u32) -> Option<VertexCopy<P::Value>>
        ensures { result ≡ copy_in commits self.now v }
    {
        if self.lacks_one(commits) {
            self.rows.pending(v)
        } else {
            self.rows.get(v)
        }
    }

    // Whether the last of so many commits is not installed yet, and all before it are.
    fn lacks_one(&self, commits: u64) -> bool
        ensures { result ≡ (self.now.installed + 1 == commits) }
    {
        if commits == 0 {
            return false;
        }
        self.installed == commits - 1
    }

    // A batch comes: one of an older epoch than the host's is gone, and each other goes into the inbox.
    pub(crate) fn receive(
        &mut self,
        alloc: Global,
        batch: &Batch<P::Value, P::Acc>,
    ) -> Result<Fate, OutOfMemory>
        requires fresh { list_any (is_of batch.now.sender batch.now.epoch (stage_of_body batch.now.body)) self.old.inbox
            ≡ false }
        ensures fate { IfOk result (λ fate. fate ≡ fate_at batch.now (Some self.old)) }
        ensures ok { OnOk result (Some self.new ≡ received batch.now (Some self.old)) }
        ensures err { OnErr result (self.new ≡ self.old) }
    {
        if batch.epoch < self.epoch {
            return Ok(Fate::Stale);
        }
        self.inbox.put(copy_of(alloc, batch)?)?;
        Ok(Fate::Taken)
    }

    // Which part of its work comes next.
    pub(crate) fn turn(&self, coordinator: &Coordinator) -> Turn
        ensures { result ≡ turn_of coordinator.now (Some self.now) }
    {
        if self.installed < coordinator.commits {
            return Turn::Install;
        }
        if self.epoch < coordinator.epoch {
            return Turn::Adopt;
        }
        turn_in(coordinator.mode)
    }

    // What is pending takes effect. It gives how many commits are installed then.
    pub(crate) fn install(&mut self) -> u64
        requires { self.old.installed < 2 ^ 64 - 1 }
        ensures host { self.new ≡ installed_host self.old }
        ensures count { result ≡ self.old.installed + 1 }
    {
        self.rows.install();
        self.arcs.install();
        self.installed += 1;
        self.installed
    }

    // A new epoch is adopted, in which a rebuild is open or none.
    pub(crate) fn adopt(&mut self, epoch: u64, rebuild: bool)
        ensures { (m : Mode) → is_rebuild m ≡ rebuild → self.new ≡ adopted_host epoch m self.old }
    {
        self.rows.discard();
        self.arcs.discard();
        self.inbox.forget_below(epoch);
        self.epoch = epoch;
        self.round = PlaceRound::before(first_stage(rebuild));
        self.appended = false;
    }

    // Does what comes next at the place `me` in a round of an epoch that it has adopted.
    pub(crate) fn act(
        &mut self,
        alloc: Global,
        me: u8,
        view: &RoundView,
        program: &P,
        targets: &Targets,
    ) -> Result<Act<P::Value, P::Acc>, OutOfMemory>
        requires needs { NeedsHold (P.program_of program.now) me view.now self.old }
        requires targets { AreGiven (P.program_of program.now) view.now me self.old targets.now }
        ensures answer { IfOk result (λ act. act
            ≡ answer_of (P.program_of program.now) me view.now self.old (next_of me view.now self.old)) }
        ensures host { OnOk result (self.new
            ≡ acted_host (P.program_of program.now) me view.now self.old (next_of me view.now self.old)) }
        ensures told { IsTrue (is_told (next_of me view.now self.old)) → IsOk result }
        ensures err { OnErr result (self.new ≡ self.old) }
    {
        let given = Given {
            program,
            arcs: &self.arcs,
            inbox: &self.inbox,
        };
        self.round
            .act(alloc, me, view, &mut self.rows, &given, targets)
    }

    // Whether what comes next at the place `me` in a round takes the targets of what woke.
    pub(crate) fn takes_targets(&self, me: u8, view: &RoundView) -> bool
        ensures { result ≡ takes_targets self.now.stage (next_of me view.now self.now) }
    {
        self.round.takes_targets(me, view, &self.inbox)
    }

    // The targets of what woke at the place `me` in a round, by what it has computed and was sent.
    pub(crate) fn targets(
        &self,
        alloc: Global,
        me: u8,
        view: &RoundView,
        program: &P,
    ) -> Result<Targets, OutOfMemory>
        requires needs { NeedsHold (P.program_of program.now) me view.now self.now }
        ensures { IfOk result (λ targets. targets
            ≡ targets_of (P.program_of program.now) view.now.epoch view.now.parties me self.now) }
    {
        let given = Given {
            program,
            arcs: &self.arcs,
            inbox: &self.inbox,
        };
        self.round.targets(alloc, me, view, &self.rows, &given)
    }

    // Whether there is something to do at the place `me` in a round of an epoch that it has adopted.
    pub(crate) fn can_act(&self, me: u8, view: &RoundView) -> bool
        ensures { result ≡ is_act (next_of me view.now self.now) }
    {
        self.round.can_act(me, view, &self.inbox)
    }

    // Notes that the batch of the computed stage has gone to the least party that it was not sent to.
    pub(crate) fn note_sent(&mut self, me: u8, parties: PlaceSet)
        requires computed { IsTrue self.old.computed }
        requires open { is_end self.old.stage ≡ false }
        requires left { IsSome (unsent (without_place parties me) self.old.sent) }
        ensures { IfSome (unsent (without_place parties me) self.old.sent) (λ q. self.new
            ≡ sent_host (without_place parties me) q self.old) }
    {
        self.round.note_sent(me, parties);
    }
}

// The stage that a place begins an epoch with.
fn first_stage(rebuild: bool) -> Stage
    ensures { (m : Mode) → is_rebuild m ≡ rebuild → result ≡ first_stage m }
{
    if rebuild { Stage::Ask } else { Stage::Gather }
}
