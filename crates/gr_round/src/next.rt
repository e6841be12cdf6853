ghost use Rattle.std.specs.Prelude.{◌≡◌, ◌++◌, ◌<◌, ℕ, IfOk, flat_map};
ghost use Rattle.gr_base.specs.Rising.{RisesBy, has};
ghost use Rattle.gr_batch.specs.Bodies.{signals_of, calls_of};
ghost use Rattle.gr_rules.specs.Round.{woke_by, call_body};
ghost use Rattle.gr_rules.specs.AtPlace.{known_values, own_next};
ghost use Rattle.gr_signal.specs.Signals.{signals_to};
ghost use Rattle.gr_round.specs.Kept.{targets_in};
ghost use Rattle.gr_round.specs.Needs.{ValuesReady, SignalsRise, CallsRise};
ghost use Rattle.gr_round.specs.Party.{brought_to};

use crate::brought::{calls_from, signals_from, values_from};
use crate::party::{Given, Party};
use crate::values::own_values;
use gr_base::{Items, OutOfMemory};
use gr_batch::Stage;
use gr_flight::Inbox;
use gr_program::{Datum, VertexProgram};
use gr_rows::Rows;
use gr_signal::{Targets, calls, take_signals, take_woken, targets_from};
use std::alloc::Global;

/// The vertices that woke, by the new values that the place knows.
pub(crate) fn woken<P: VertexProgram>(
    alloc: Global,
    party: &Party,
    rows: &Rows<P::Value>,
    given: &Given<P>,
) -> Result<Items<u32>, OutOfMemory>
    requires needs { ValuesReady (P.program_of given.now.program.now) party.now
        given.now.inbox.now rows.now given.now.arcs.now.stable }
    ensures members { IfOk result (λ woken. (v : ℕ) → has woken v
        ≡ woke_by (known_values (P.program_of given.now.program.now)
        party.now.place party.now.epoch party.now.others given.now.inbox.now
        rows.now.stable given.now.arcs.now.stable) v) }
    ensures rise { IfOk result (λ woken. RisesBy (λ v. v) woken) }
{
    let own = own_values(alloc, party, rows, given)?;
    let mut woken = Items::new(alloc);
    take_woken(alloc, own.as_slice(), &mut woken)?;
    for p in 0..64u8 {
        if party.others.has(p) {
            take_woken(alloc, values_from(given.inbox, p, party.epoch), &mut woken)?;
        }
    }
    Ok(woken)
}

/// The targets of the edges of the place from the vertices that woke, by the new values that it knows.
pub(crate) fn targets_at<P: VertexProgram>(
    alloc: Global,
    party: &Party,
    rows: &Rows<P::Value>,
    given: &Given<P>,
) -> Result<Targets, OutOfMemory>
    requires needs { ValuesReady (P.program_of given.now.program.now) party.now
        given.now.inbox.now rows.now given.now.arcs.now.stable }
    ensures { IfOk result (λ targets. targets ≡ targets_in (P.program_of given.now.program.now)
        party.now given.now.inbox.now rows.now.stable given.now.arcs.now.stable) }
{
    let woken = woken(alloc, party, rows, given)?;
    targets_from(alloc, rows, given.arcs, woken.as_slice())
}

/// The vertices due next that the place masters: those among the targets of its edges, and those that it was signalled.
pub(crate) fn own_next<V: Datum, A: Datum>(
    alloc: Global,
    party: &Party,
    targets: &Targets,
    inbox: &Inbox<V, A>,
) -> Result<Items<u32>, OutOfMemory>
    requires signals { SignalsRise inbox.now party.now.epoch party.now.others }
    ensures members { IfOk result (λ next. (v : ℕ) → has next v ≡ has (signals_to targets.now party.now.place
        ++ flat_map signals_of (brought_to party.now inbox.now Stage.Signal)) v) }
    ensures rise { IfOk result (λ next. RisesBy (λ v. v) next) }
{
    let mut next = targets.mastered_by(alloc, party.place)?;
    for p in 0..64u8 {
        if party.others.has(p) {
            take_signals(alloc, signals_from(inbox, p, party.epoch), &mut next)?;
        }
    }
    Ok(next)
}

/// All vertices of the place that are due next: its own, and those that it was called.
pub(crate) fn all_next<V: Datum, A: Datum>(
    alloc: Global,
    party: &Party,
    targets: &Targets,
    inbox: &Inbox<V, A>,
) -> Result<Items<u32>, OutOfMemory>
    requires signals { SignalsRise inbox.now party.now.epoch party.now.others }
    requires calls { CallsRise inbox.now party.now.epoch party.now.others }
    ensures members { IfOk result (λ next. (v : ℕ) → has next v ≡ has ((signals_to targets.now party.now.place
        ++ flat_map signals_of (brought_to party.now inbox.now Stage.Signal))
        ++ flat_map calls_of (brought_to party.now inbox.now Stage.Call)) v) }
    ensures rise { IfOk result (λ next. RisesBy (λ v. v) next) }
{
    let mut next = own_next(alloc, party, targets, inbox)?;
    for p in 0..64u8 {
        if party.others.has(p) {
            take_signals(alloc, calls_from(inbox, p, party.epoch), &mut next)?;
        }
    }
    Ok(next)
}

/// The Call body to the place `to`: the targets that the place masters and `to` holds, and those of the vertices that
/// it was signalled.
///
/// It takes time linear in the targets, and a search for each vertex that it was signalled.
pub(crate) fn call_body<P: VertexProgram>(
    alloc: Global,
    to: u8,
    party: &Party,
    rows: &Rows<P::Value>,
    given: &Given<P>,
    targets: &Targets,
) -> Result<Items<u32>, OutOfMemory>
    requires place { to < 64 }
    requires signals { SignalsRise given.now.inbox.now party.now.epoch party.now.others }
    requires targets { targets.now ≡ targets_in (P.program_of given.now.program.now) party.now
        given.now.inbox.now rows.now.stable given.now.arcs.now.stable }
    ensures { IfOk result (λ body. body ≡ call_body (own_next (P.program_of given.now.program.now)
        party.now.place party.now.epoch party.now.others given.now.inbox.now
        rows.now.stable given.now.arcs.now.stable) rows.now.stable party.now.place to) }
{
    // It says that the copies rise.
    let _count = rows.count();
    let mut called = targets.called_to(alloc, party.place, to)?;
    for p in 0..64u8 {
        if party.others.has(p) {
            let signals = signals_from(given.inbox, p, party.epoch);
            let more = calls(alloc, rows, signals, party.place, to)?;
            take_signals(alloc, more.as_slice(), &mut called)?;
        }
    }
    Ok(called)
}
