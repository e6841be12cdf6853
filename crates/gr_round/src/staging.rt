ghost use Rattle.std.specs.Prelude.{◌≡◌, map, OnOk, OnErr, flat_map};
ghost use Rattle.gr_batch.specs.Bodies.{values_of};
ghost use Rattle.gr_batch.specs.Stages.{is_end};
ghost use Rattle.gr_rows.specs.Layers.{vertex_of};
ghost use Rattle.gr_rules.specs.Rows.{with_values};
ghost use Rattle.gr_rules.specs.AtPlace.{round_rows};
ghost use Rattle.gr_round.specs.Kept.{TargetsGiven};
ghost use Rattle.gr_round.specs.Needs.{RoundReady, UpdatesFit};
ghost use Rattle.gr_round.specs.Party.{brought_to};

use crate::brought::values_from;
use crate::next::all_next;
use crate::party::{Given, Party};
use crate::values::own_values;
use gr_base::OutOfMemory;
use gr_batch::Stage;
use gr_flight::Inbox;
use gr_program::{Datum, VertexProgram};
use gr_rows::Rows;
use gr_signal::{Targets, take_calls, take_updates};
use std::alloc::Global;

/// Stages what computing the stage of a place stages. What it needs is computed before anything is staged, so that a
/// refusal leaves the copies as they were.
pub(crate) fn stage_rows<P: VertexProgram>(
    alloc: Global,
    party: &Party,
    rows: &mut Rows<P::Value>,
    given: &Given<P>,
    targets: &Targets,
) -> Result<(), OutOfMemory>
    requires needs { RoundReady (P.program_of given.now.program.now) party.now
        given.now.inbox.now rows.old given.now.arcs.now.stable }
    requires targets { TargetsGiven (P.program_of given.now.program.now) party.now
        given.now.inbox.now rows.old.stable given.now.arcs.now.stable (is_end party.now.stage) targets.now }
    ensures ok { OnOk result (rows.new ≡ record rows.old {
      pending = round_rows (P.program_of given.now.program.now)
          party.now.place party.now.epoch party.now.others given.now.inbox.now
          rows.old.stable given.now.arcs.now.stable party.now.stage rows.old.pending;
    }) }
    ensures err { OnErr result (rows.new ≡ rows.old) }
{
    match party.stage {
        Stage::Update => {
            let news = own_values(alloc, party, rows, given)?;
            take_updates(rows, news.as_slice());
            Ok(())
        }
        Stage::Signal => {
            stage_sent(party, rows, given.inbox);
            Ok(())
        }
        Stage::End => {
            let next = all_next(alloc, party, targets, given.inbox)?;
            take_calls(rows, next.as_slice());
            Ok(())
        }
        _ => Ok(()),
    }
}

/// Stages the new values that the place was sent. Of several values of a vertex that of the least sender stands, so
/// the greatest comes first.
fn stage_sent<V: Datum, A: Datum>(party: &Party, rows: &mut Rows<V>, inbox: &Inbox<V, A>)
    requires updates { UpdatesFit inbox.now party.now.epoch party.now.others rows.old.stable }
    requires pending { map vertex_of rows.old.pending ≡ map vertex_of rows.old.stable }
    ensures { rows.new ≡ record rows.old {
      pending = with_values (flat_map values_of (brought_to party.now inbox.now Stage.Update)) rows.old.pending;
    } }
{
    // A look into the set tells that its places rise and are below 64.
    let _places = party.others.has(0);
    for k in 0..64u8 {
        let p = 63 - k;
        if party.others.has(p) {
            take_updates(rows, values_from(inbox, p, party.epoch));
        }
    }
}
