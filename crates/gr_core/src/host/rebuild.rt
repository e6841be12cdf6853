ghost use Rattle.std.specs.Prelude.{◌≡◌, ◌<◌, false, true, length, set, IsTrue, IfOk, OnOk, OnErr};
ghost use Rattle.gr_base.specs.Places.{without_place};
ghost use Rattle.gr_batch.specs.Stages.{is_end};
ghost use Rattle.gr_log.specs.Bytes.{size_of};
ghost use Rattle.gr_log.specs.Log.{with_records};
ghost use Rattle.gr_rules.specs.Taken.{log_at};
ghost use Rattle.gr_rules.specs.AtPlace.{due_count};
ghost use Rattle.gr_round.specs.Todo.{todo_of, place_to, todo_in_rebuild};
ghost use Rattle.gr_rebuild.specs.Ending.{IsAllCommitted};
ghost use Rattle.gr_cluster.specs.Work.{exchange_of, computed_host};
ghost use Rattle.gr_law_work.specs.AtPlace.{ReadyToRebuild, rows_after, arcs_after, body_after, appended_by};

use crate::host::Host;
use gr_base::{OutOfMemory, PlaceSet};
use gr_batch::{Body, Stage};
use gr_log::EdgeLog;
use gr_migrate::{LoggedEdge, asks, taken_edges};
use gr_program::VertexProgram;
use gr_rebuild::{PlaceInRebuild, granted, granted_to, record, stage};
use gr_round::{Step, due_count, is_end};
use std::alloc::Global;

impl<P: VertexProgram> Host<P> {
    // What the place `me` does next in a rebuild of an epoch that it has adopted.
    pub(crate) fn next_in_rebuild(&self, me: u8, parties: PlaceSet) -> Step
        ensures next { todo_of result ≡ todo_in_rebuild self.now.inbox self.now.epoch (without_place parties me)
            (exchange_of self.now) self.now.appended self.now.reported }
        ensures place { place_to result < 64 }
    {
        self.round
            .next_in_rebuild(me, self.epoch, parties, &self.inbox, self.appended)
    }

    // The stage of a rebuild is computed. At the end the copies that are granted to the place and the edges that it
    // takes over are staged.
    pub(crate) fn compute_in_rebuild(
        &mut self,
        alloc: Global,
        place: &PlaceInRebuild,
        retired: &[LoggedEdge],
    ) -> Result<Stage, OutOfMemory>
        requires ready { ReadyToRebuild place.now retired.now self.old }
        requires fresh { self.old.computed ≡ false }
        ensures stage { IfOk result (λ stage. stage ≡ self.old.stage) }
        ensures host { OnOk result (self.new ≡ computed_host place.now.others
            (rows_after place.now retired.now self.old self.old.stage)
            (arcs_after place.now retired.now self.old self.old.stage) self.old) }
        ensures err { OnErr result (self.new ≡ self.old) }
    {
        let stage = self.round.stage();
        if is_end(stage) {
            self.stage_in_rebuild(alloc, place, retired)?;
        }
        self.round.note_computed(place.others);
        Ok(stage)
    }

    // The copies that are granted to the place and the edges that it takes over are staged.
    fn stage_in_rebuild(
        &mut self,
        alloc: Global,
        place: &PlaceInRebuild,
        retired: &[LoggedEdge],
    ) -> Result<(), OutOfMemory>
        requires ready { ReadyToRebuild place.now retired.now self.old }
        requires fresh { self.old.computed ≡ false }
        ensures host { OnOk result (self.new ≡ record self.old {
          pending = rows_after place.now retired.now self.old Stage.End;
          pending_arcs = arcs_after place.now retired.now self.old Stage.End;
        }) }
        ensures err { OnErr result (self.new ≡ self.old) }
    {
        let granted = granted(alloc, place, &self.rows, &self.inbox)?;
        let taken = taken_edges(alloc, place.place, retired, &place.view)?;
        stage(
            alloc,
            &mut self.rows,
            &mut self.arcs,
            granted.as_slice(),
            taken.as_slice(),
        )
    }

    // The body of the stage of a rebuild to the place `to`.
    pub(crate) fn body_in_rebuild(
        &self,
        alloc: Global,
        place: &PlaceInRebuild,
        retired: &[LoggedEdge],
        to: u8,
    ) -> Result<Body<P::Value, P::Acc>, OutOfMemory>
        requires ready { ReadyToRebuild place.now retired.now self.now }
        ensures { IfOk result (λ body. body ≡ body_after place.now retired.now self.now to self.now.stage) }
    {
        match self.round.stage() {
            Stage::Ask => {
                let vertices = asks(alloc, place.place, &self.rows, retired, &place.view, to)?;
                Ok(Body::Ask(vertices))
            }
            _ => {
                let copies = granted_to(alloc, place, &self.rows, &self.inbox, to)?;
                Ok(Body::Grant(copies))
            }
        }
    }

    // What is granted to the place and what it takes over goes into its log. It gives the number of bytes.
    pub(crate) fn append_in_rebuild(
        &mut self,
        alloc: Global,
        place: &PlaceInRebuild,
        retired: &[LoggedEdge],
        logs: &mut Vec<EdgeLog>,
    ) -> Result<u64, OutOfMemory>
        requires ready { ReadyToRebuild place.now retired.now self.old }
        requires place { place.now.place < length logs.old.items }
        requires committed { IsAllCommitted (log_at logs.old.items place.now.place) }
        ensures bytes { IfOk result (λ bytes. bytes ≡ size_of (appended_by place.now retired.now self.old)) }
        ensures logs { OnOk result (logs.new.items
            ≡ set logs.old.items place.now.place
            (with_records (appended_by place.now retired.now self.old) (log_at logs.old.items place.now.place))) }
        ensures host { OnOk result (self.new ≡ record self.old { appended = true }) }
        ensures logs_kept { OnErr result (logs.new.items ≡ logs.old.items) }
        ensures host_kept { OnErr result (self.new ≡ self.old) }
    {
        let granted = granted(alloc, place, &self.rows, &self.inbox)?;
        let taken = taken_edges(alloc, place.place, retired, &place.view)?;
        let log = &mut logs[usize::from(place.place)];
        let bytes = record(log, granted.as_slice(), taken.as_slice())?;
        self.appended = true;
        Ok(bytes)
    }

    // The place `me` reports. It gives how many vertices that it masters are due.
    pub(crate) fn report(&mut self, me: u8) -> u32
        requires computed { IsTrue self.old.computed }
        requires end { IsTrue (is_end self.old.stage) }
        ensures host { self.new ≡ record self.old { reported = true } }
        ensures due { result ≡ due_count me self.old.pending }
    {
        self.round.note_reported();
        due_count(&self.rows, me)
    }
}
