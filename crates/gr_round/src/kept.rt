ghost use Rattle.std.specs.Prelude.{◌≡◌, IfOk};
ghost use Rattle.gr_round.specs.Kept.{targets_in};
ghost use Rattle.gr_round.specs.Needs.{ValuesReady};
ghost use Rattle.gr_round.specs.Party.{party_at};

use crate::line::{PlaceRound, others_of};
use crate::next::targets_at;
use crate::party::{Given, Party};
use crate::view::RoundView;
use gr_base::OutOfMemory;
use gr_program::VertexProgram;
use gr_rows::Rows;
use gr_signal::Targets;
use std::alloc::Global;

impl PlaceRound {
    /// The targets of what woke at the place `me` in a round: the vertices to which an edge of the place leads from a
    /// vertex whose new value wakes, by the values that the place has computed and those that it was sent.
    ///
    /// It takes a search for each due vertex that the place masters, and the time to sort the targets of the edges out
    /// of what woke.
    ///
    /// # Errors
    ///
    /// `OutOfMemory` if memory runs out.
    pub fn targets<P: VertexProgram>(
        &self,
        alloc: Global,
        me: u8,
        view: &RoundView,
        rows: &Rows<P::Value>,
        given: &Given<P>,
    ) -> Result<Targets, OutOfMemory>
        requires needs { ValuesReady (P.program_of given.now.program.now) (party_at me view.now self.now)
            given.now.inbox.now rows.now given.now.arcs.now.stable }
        ensures { IfOk result (λ targets. targets ≡ targets_in (P.program_of given.now.program.now)
            (party_at me view.now self.now) given.now.inbox.now rows.now.stable given.now.arcs.now.stable) }
    {
        let party = Party {
            place: me,
            epoch: view.epoch,
            others: others_of(view.parties, me),
            stage: self.stage(),
            has_new_values: self.has_new_values(),
            theta: view.theta,
        };
        targets_at(alloc, &party, rows, given)
    }
}
