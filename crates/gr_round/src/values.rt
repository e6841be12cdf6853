ghost use Rattle.std.specs.Prelude.{◌≡◌, ◌<◌, ◌==◌, ◌&&◌, not, IsTrue, IfOk, IfSome};
ghost use Rattle.gr_base.specs.Rising.{RisesBy, has};
ghost use Rattle.gr_rules.specs.Rows.{row, is_hidden};
ghost use Rattle.gr_rules.specs.Round.{whole_sum, old_value, new_value, new_values, update_body};
ghost use Rattle.gr_rules.specs.Inbox.{bodies};
ghost use Rattle.gr_low.specs.Sources.{SourcesReady};
ghost use Rattle.gr_round.specs.Needs.{ValuesReady, StagesNew, GathersFit, BringTheSame, staged_in};
ghost use Rattle.gr_round.specs.Party.{brought_to};

use crate::brought::parts_from;
use crate::party::{Given, Party};
use gr_base::{Items, OutOfMemory, PlaceSet};
use gr_batch::{NewValue, Stage};
use gr_high::join_partials;
use gr_low::gather_low;
use gr_program::{Datum, VertexCopy, VertexProgram};
use gr_rows::Rows;
use std::alloc::Global;

/// The new values of the due vertices that the place masters, in rising order. It goes through the due copies only.
pub(crate) fn own_values<P: VertexProgram>(
    alloc: Global,
    party: &Party,
    rows: &Rows<P::Value>,
    given: &Given<P>,
) -> Result<Items<NewValue<P::Value>>, OutOfMemory>
    requires needs { ValuesReady (P.program_of given.now.program.now) party.now
        given.now.inbox.now rows.now given.now.arcs.now.stable }
    ensures values { IfOk result (λ news. news ≡ new_values (P.program_of given.now.program.now) party.now.place
        rows.now.stable given.now.arcs.now.stable (brought_to party.now given.now.inbox.now Stage.Gather)) }
    ensures rise { IfOk result (λ news. RisesBy (λ n. n.vertex) news) }
{
    let senders = bringers(party, given);
    let mut news = Items::new(alloc);
    let mut i = 0;
    while let Some(copy) = rows.due_at(i) {
        if is_own(party, &copy) {
            news.push(new_value(party, senders, rows, given, &copy))?;
        }
        i += 1;
    }
    Ok(news)
}

/// The Update body to the place `to`: the new values of those vertices that it holds, except those without readers
/// under a forgetful program. It goes through the due copies only.
pub(crate) fn update_body<P: VertexProgram>(
    alloc: Global,
    to: u8,
    party: &Party,
    rows: &Rows<P::Value>,
    given: &Given<P>,
) -> Result<Items<NewValue<P::Value>>, OutOfMemory>
    requires place { to < 64 }
    requires needs { ValuesReady (P.program_of given.now.program.now) party.now
        given.now.inbox.now rows.now given.now.arcs.now.stable }
    ensures { IfOk result (λ news. news ≡ update_body (P.program_of given.now.program.now) party.now.place to
        rows.now.stable given.now.arcs.now.stable (brought_to party.now given.now.inbox.now Stage.Gather)) }
{
    let senders = bringers(party, given);
    let mut news = Items::new(alloc);
    let mut i = 0;
    while let Some(copy) = rows.due_at(i) {
        if is_updated(to, P::FORGETFUL, party, &copy) {
            news.push(new_value(party, senders, rows, given, &copy))?;
        }
        i += 1;
    }
    Ok(news)
}

/// Whether the place computes the new value of a copy's vertex: it is due, and the place masters it.
fn is_own<V: Datum>(party: &Party, copy: &VertexCopy<V>) -> bool
    ensures { result ≡ (copy.now.due && (copy.now.master == party.now.place)) }
{
    copy.due && copy.master == party.place
}

/// Whether the new value of a copy's vertex goes to the place `to`.
fn is_updated<V: Datum>(to: u8, forgetful: bool, party: &Party, copy: &VertexCopy<V>) -> bool
    requires { to < 64 }
    ensures { result ≡ ((copy.now.due && (copy.now.master == party.now.place))
        && (has copy.now.holders to && not (is_hidden forgetful copy.now))) }
{
    if !is_own(party, copy) {
        return false;
    }
    if !copy.holders.has(to) {
        return false;
    }
    !is_hidden(forgetful, copy)
}

/// Whether the value of a copy's vertex is kept only at its master.
fn is_hidden<V: Datum>(forgetful: bool, copy: &VertexCopy<V>) -> bool
    ensures { result ≡ is_hidden forgetful copy.now }
{
    forgetful && copy.outdeg == 0
}

/// The new value of a copy's vertex. If the new values are staged, it is that of the pending copy. Otherwise its sum
/// has the parts of these senders.
fn new_value<P: VertexProgram>(
    party: &Party,
    senders: PlaceSet,
    rows: &Rows<P::Value>,
    given: &Given<P>,
    copy: &VertexCopy<P::Value>,
) -> NewValue<P::Value>
    requires needs { ValuesReady (P.program_of given.now.program.now) party.now
        given.now.inbox.now rows.now given.now.arcs.now.stable }
    requires value { IfSome copy.now.value (λ x. IsTrue ((P.program_of given.now.program.now).is_value x)) }
    requires staged { StagesNew (P.program_of given.now.program.now) party.now
        given.now.inbox.now rows.now given.now.arcs.now.stable copy.now }
    requires sums { BringTheSame (P.program_of given.now.program.now)
        given.now.inbox.now party.now.epoch party.now.others senders }
    requires gathers { GathersFit given.now.inbox.now party.now.epoch senders (P.program_of given.now.program.now) }
    ensures { result ≡ new_value (P.program_of given.now.program.now)
        rows.now.stable given.now.arcs.now.stable (brought_to party.now given.now.inbox.now Stage.Gather) copy.now }
{
    let program = given.program;
    let old = old_value(program, copy);
    let value = match staged_value(party, rows, copy.vertex) {
        Some(value) => value,
        None => {
            let sum = whole_sum(party.epoch, senders, rows, given, copy.vertex);
            program.apply(copy.vertex, old, sum)
        }
    };
    NewValue {
        vertex: copy.vertex,
        value,
        wake: program.wakes(old, value),
    }
}

/// The value of the pending copy of a vertex, if the new values are staged.
fn staged_value<V: Datum>(party: &Party, rows: &Rows<V>, v: u32) -> Option<V>
    ensures { result ≡ staged_in party.now.has_new_values (row rows.now.pending v) }
{
    if !party.has_new_values {
        return None;
    }
    match rows.pending(v) {
        Some(copy) => copy.value,
        None => None,
    }
}

/// The value of a copy, or the first value of its vertex where none is kept.
fn old_value<P: VertexProgram>(program: &P, copy: &VertexCopy<P::Value>) -> P::Value
    requires { IfSome copy.now.value (λ x. IsTrue ((P.program_of program.now).is_value x)) }
    ensures value { result ≡ old_value (P.program_of program.now) copy.now }
    ensures kept { IsTrue ((P.program_of program.now).is_value result) }
{
    match copy.value {
        Some(value) => value,
        None => program.start(copy.vertex, copy.indeg, copy.outdeg),
    }
}

/// What the place's edges bring to a vertex, joined with each part that these senders sent in an epoch, by rising
/// sender.
fn whole_sum<P: VertexProgram>(
    epoch: u64,
    senders: PlaceSet,
    rows: &Rows<P::Value>,
    given: &Given<P>,
    v: u32,
) -> P::Acc
    requires sources { SourcesReady (P.program_of given.now.program.now) rows.now.stable given.now.arcs.now.stable }
    requires gathers { GathersFit given.now.inbox.now epoch senders (P.program_of given.now.program.now) }
    ensures sum { result ≡ whole_sum (P.program_of given.now.program.now)
        rows.now.stable given.now.arcs.now.stable (bodies given.now.inbox.now epoch Stage.Gather senders) v }
    ensures kept { IsTrue ((P.program_of given.now.program.now).is_acc result) }
{
    let mut sum = gather_low(given.program, rows, given.arcs, v);
    if senders.count() == 0 {
        return sum;
    }
    for p in 0..64u8 {
        if senders.has(p) {
            let parts = parts_from(given.inbox, p, epoch);
            sum = join_partials(given.program, sum, parts, v);
        }
    }
    sum
}

/// The other parties whose parts the sums of the place need: those that sent some. If the new values are staged, no sum
/// is worked out, and all other parties are returned.
fn bringers<P: VertexProgram>(party: &Party, given: &Given<P>) -> PlaceSet
    requires gathers { GathersFit given.now.inbox.now party.now.epoch party.now.others
        (P.program_of given.now.program.now) }
    ensures sums { BringTheSame (P.program_of given.now.program.now)
        given.now.inbox.now party.now.epoch party.now.others result }
    ensures gathers { GathersFit given.now.inbox.now party.now.epoch result (P.program_of given.now.program.now) }
{
    let mut senders = party.others;
    if party.has_new_values {
        return senders;
    }
    for p in 0..64u8 {
        if parts_from(given.inbox, p, party.epoch).is_empty() {
            senders = senders.without(p);
        }
    }
    senders
}
