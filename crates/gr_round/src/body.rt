ghost use Rattle.std.specs.Prelude.{◌≡◌, ◌<◌, IfOk};
ghost use Rattle.gr_rules.specs.AtPlace.{round_body};
ghost use Rattle.gr_round.specs.Kept.{is_of_targets, TargetsGiven};
ghost use Rattle.gr_round.specs.Needs.{ValuesReady, SignalsRise};

use crate::next::call_body;
use crate::party::{Given, Party};
use crate::values::update_body;
use gr_base::{Items, OutOfMemory};
use gr_batch::{Body, Stage};
use gr_high::partials;
use gr_program::VertexProgram;
use gr_rows::Rows;
use gr_signal::Targets;
use std::alloc::Global;

/// The body of the stage of a place to the place `to`.
pub(crate) fn body_to<P: VertexProgram>(
    alloc: Global,
    to: u8,
    party: &Party,
    rows: &Rows<P::Value>,
    given: &Given<P>,
    targets: &Targets,
) -> Result<Body<P::Value, P::Acc>, OutOfMemory>
    requires place { to < 64 }
    requires needs { ValuesReady (P.program_of given.now.program.now) party.now
        given.now.inbox.now rows.now given.now.arcs.now.stable }
    requires signals { SignalsRise given.now.inbox.now party.now.epoch party.now.others }
    requires targets { TargetsGiven (P.program_of given.now.program.now) party.now
        given.now.inbox.now rows.now.stable given.now.arcs.now.stable (is_of_targets party.now.stage) targets.now }
    ensures { IfOk result (λ body. body ≡ round_body (P.program_of given.now.program.now)
        party.now.place party.now.epoch party.now.others given.now.inbox.now
        rows.now.stable given.now.arcs.now.stable party.now.theta to party.now.stage) }
{
    match party.stage {
        Stage::Gather => {
            let parts = partials(alloc, given.program, rows, given.arcs, party.theta, to)?;
            Ok(Body::Gather(parts))
        }
        Stage::Update => {
            let news = update_body(alloc, to, party, rows, given)?;
            Ok(Body::Update(news))
        }
        Stage::Signal => Ok(Body::Signal(targets.mastered_by(alloc, to)?)),
        Stage::Call => {
            let called = call_body(alloc, to, party, rows, given, targets)?;
            Ok(Body::Call(called))
        }
        _ => Ok(Body::Call(Items::new(alloc))),
    }
}
