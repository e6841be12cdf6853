ghost use Rattle.std.specs.Prelude.{◌≡◌, map, IsTrue, IsOk, IfOk, OnOk, OnErr};
ghost use Rattle.gr_rows.specs.Layers.{vertex_of};
ghost use Rattle.gr_round.specs.Acts.{next_answer, next_line, next_pending};
ghost use Rattle.gr_round.specs.Kept.{takes_targets, TargetsGiven};
ghost use Rattle.gr_round.specs.Needs.{RoundReady};
ghost use Rattle.gr_round.specs.Party.{party_at};
ghost use Rattle.gr_round.specs.Todo.{next_at, is_told, RestsOnceReported};

use crate::body::body_to;
use crate::due::due_count;
use crate::line::{PlaceRound, others_of};
use crate::party::{Given, Party};
use crate::staging::stage_rows;
use crate::step::Step;
use crate::view::RoundView;
use gr_base::OutOfMemory;
use gr_batch::{Batch, Stage};
use gr_program::{Datum, VertexProgram};
use gr_rows::Rows;
use gr_signal::Targets;
use std::alloc::Global;

/// What a place did in a round, or tells: a stage is computed; a batch is to be sent; the place is ready, with the
/// number of vertices that it masters and that are due next; it waits for the batch of a stage of a party; or it has
/// nothing to do.
#[derive(Debug, Drop)]
pub enum Act<V: Datum, A: Datum> {
    Computed(Stage),
    Sent(Batch<V, A>),
    Ready(u32),
    Waiting(Stage, u8),
    Rest,
}

impl PlaceRound {
    /// Does what comes next at the place `me` in a round of an epoch that it has adopted.
    ///
    /// A stage that is not computed is computed once the batches that it needs are there: what it stages goes into the
    /// pending copies, and it is passed at once where there is no other party. The batch of a computed stage to the
    /// least party that lacks it is only answered: once it is on its way, `note_sent` notes it. At the end the place
    /// reports, once, how many vertices that it masters are due in its pending copies.
    ///
    /// `Waiting` names the stage that is needed and the least party whose batch is missing. `Rest` comes exactly after
    /// `Ready`, where each computed stage other than the end has a party left to send to, as `note_sent` leaves it.
    /// These three take no memory and are never refused.
    ///
    /// The new values of the due vertices that the place masters, each a sum over the edges into it, are computed once
    /// in a round. From then on they are read from the pending copies.
    ///
    /// `targets` are those of `PlaceRound::targets`, if `takes_targets` says that the work takes them. They may be
    /// anything otherwise.
    ///
    /// # Errors
    ///
    /// `OutOfMemory` if memory runs out. Then everything is as it was.
    pub fn act<P: VertexProgram>(
        &mut self,
        alloc: Global,
        me: u8,
        view: &RoundView,
        rows: &mut Rows<P::Value>,
        given: &Given<P>,
        targets: &Targets,
    ) -> Result<Act<P::Value, P::Acc>, OutOfMemory>
        requires needs { RoundReady (P.program_of given.now.program.now) (party_at me view.now self.old)
            given.now.inbox.now rows.old given.now.arcs.now.stable }
        requires targets { TargetsGiven (P.program_of given.now.program.now) (party_at me view.now self.old)
            given.now.inbox.now rows.old.stable given.now.arcs.now.stable
            (takes_targets self.old.exchange.stage (next_at me view.now given.now.inbox.now self.old)) targets.now }
        ensures answer { IfOk result (λ act. act ≡ next_answer (P.program_of given.now.program.now) me view.now
            given.now.inbox.now given.now.arcs.now.stable self.old rows.old) }
        ensures line { OnOk result (self.new ≡ next_line me view.now given.now.inbox.now self.old) }
        ensures rows { OnOk result (rows.new ≡ record rows.old {
          pending = next_pending (P.program_of given.now.program.now) me view.now
              given.now.inbox.now given.now.arcs.now.stable self.old rows.old;
        }) }
        ensures vertices { map vertex_of rows.new.pending ≡ map vertex_of rows.new.stable }
        ensures rest { RestsOnceReported me view.now given.now.inbox.now self.old }
        ensures told { IsTrue (is_told (next_at me view.now given.now.inbox.now self.old)) → IsOk result }
        ensures line_kept { OnErr result (self.new ≡ self.old) }
        ensures rows_kept { OnErr result (rows.new ≡ rows.old) }
    {
        let party = Party {
            place: me,
            epoch: view.epoch,
            others: others_of(view.parties, me),
            stage: self.stage(),
            has_new_values: self.has_new_values(),
            theta: view.theta,
        };
        match self.next_step(me, view, given.inbox) {
            Step::Compute => {
                stage_rows(alloc, &party, rows, given, targets)?;
                self.note_computed(party.others);
                Ok(Act::Computed(party.stage))
            }
            Step::Send(to) => {
                let body = body_to(alloc, to, &party, rows, given, targets)?;
                Ok(Act::Sent(Batch {
                    serial: view.serial,
                    epoch: view.epoch,
                    round: view.round,
                    sender: me,
                    receiver: to,
                    body,
                }))
            }
            Step::Report => {
                self.note_reported();
                Ok(Act::Ready(due_count(rows, me)))
            }
            Step::Wait(stage, from) => Ok(Act::Waiting(stage, from)),
            Step::Append | Step::Rest => Ok(Act::Rest),
        }
    }
}
