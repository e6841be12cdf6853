ghost use Rattle.std.specs.Prelude.{◌≡◌, ◌<◌, ◌↔◌, [], true, false, IsTrue, IsSome, IfSome};
ghost use Rattle.gr_base.specs.Places.{without_place};
ghost use Rattle.gr_batch.specs.Stages.{is_end, stage_after};
ghost use Rattle.gr_rules.specs.Exchange.{needed, unsent, passed, computed, sent_to};
ghost use Rattle.gr_rules.specs.Todo.{Todo, compute_or_wait, send_or_rest, is_act};
ghost use Rattle.gr_round.specs.Kept.{is_of_targets, takes_targets};
ghost use Rattle.gr_round.specs.Line.{line_before, first_line, has_new_values};
ghost use Rattle.gr_round.specs.Todo.{todo_of, place_to, next_at, todo_in_rebuild, RestsOnceReported};

use crate::step::Step;
use crate::view::RoundView;
use gr_base::PlaceSet;
use gr_batch::Stage;
use gr_flight::Inbox;
use gr_program::Datum;
use std::marker::Model;

/// How far a place is in a round, or in a rebuild: the stage, whether it is computed, the places that its batches were
/// sent to, and whether the place has reported in this epoch.
///
/// What is sent and staged is not kept here: it is worked out from copies, edges and inbox.
#[derive(Debug, Drop)]
pub struct PlaceRound {
    stage: Stage,
    computed: bool,
    sent: PlaceSet,
    reported: bool,
}

impl Model for PlaceRound {
    ghost use Rattle.std.specs.Prelude.{IsTrue};
    ghost use Rattle.gr_round.specs.Kept.{is_of_targets, takes_targets};
    ghost use Rattle.gr_round.specs.Line.{RoundLine, line_with, is_line};

    ghost Value = { RoundLine };

    ghost view = { λ r. line_with r.stage r.computed r.sent r.reported };

    ghost invariant = { λ r. IsTrue (is_line (line_with r.stage r.computed r.sent r.reported)) };
}

impl PlaceRound {
    /// The start of a round, before its first stage. It takes no memory.
    pub fn new() -> PlaceRound
        ensures { result ≡ first_line }
    {
        PlaceRound::before(Stage::Gather)
    }

    /// The start of an epoch, before the stage that it begins with. It takes no memory.
    pub fn before(stage: Stage) -> PlaceRound
        ensures { result ≡ line_before stage }
    {
        PlaceRound {
            stage,
            computed: false,
            sent: PlaceSet::none(),
            reported: false,
        }
    }

    /// Goes back to the start of a round. It takes no memory.
    pub fn reset(&mut self)
        ensures { self.new ≡ first_line }
    {
        *self = PlaceRound::new();
    }

    /// Notes that the batch of the computed stage has gone to the least party that it was not sent to. After the last
    /// one the next stage begins. It takes no memory.
    pub fn note_sent(&mut self, me: u8, parties: PlaceSet)
        requires computed { IsTrue self.old.exchange.computed }
        requires open { is_end self.old.exchange.stage ≡ false }
        requires left { IsSome (unsent (without_place parties me) self.old.exchange.sent) }
        ensures { IfSome (unsent (without_place parties me) self.old.exchange.sent)
            (λ q. self.new ≡ record self.old { exchange = sent_to (without_place parties me) q self.old.exchange }) }
    {
        let others = others_of(parties, me);
        if let Some(to) = unsent(others, self.sent) {
            let sent = self.sent.with(to);
            *self = passed_line(unsent(others, sent), self.stage, sent);
        }
    }

    /// Whether the place has something to do: it neither waits for a batch nor rests. It takes no memory.
    pub fn can_act<V: Datum, A: Datum>(&self, me: u8, view: &RoundView, inbox: &Inbox<V, A>) -> bool
        ensures { result ≡ is_act (next_at me view.now inbox.now self.now) }
    {
        match self.next_step(me, view, inbox) {
            Step::Wait(_, _) | Step::Rest => false,
            _ => true,
        }
    }

    /// Whether what the place does next takes the targets of what woke: it sends a Signal or a Call batch, or computes
    /// the end. It takes no memory, and a search of the inbox for each other party.
    pub fn takes_targets<V: Datum, A: Datum>(
        &self,
        me: u8,
        view: &RoundView,
        inbox: &Inbox<V, A>,
    ) -> bool
        ensures { result ≡ takes_targets self.now.exchange.stage (next_at me view.now inbox.now self.now) }
    {
        match self.next_step(me, view, inbox) {
            Step::Send(_) => is_of_targets(self.stage),
            Step::Compute => is_end(self.stage),
            _ => false,
        }
    }

    /// What the place does next in a rebuild of an epoch that it has adopted: like in a round, but it appends to its
    /// log before it reports. It takes no memory, and a search of the inbox for each other party.
    pub fn next_in_rebuild<V: Datum, A: Datum>(
        &self,
        me: u8,
        epoch: u64,
        parties: PlaceSet,
        inbox: &Inbox<V, A>,
        appended: bool,
    ) -> Step
        ensures next { todo_of result
            ≡ todo_in_rebuild inbox.now epoch (without_place parties me) self.now.exchange appended self.now.reported }
        ensures place { place_to result < 64 }
    {
        let others = others_of(parties, me);
        if !self.computed {
            return compute_or_wait(inbox, epoch, others, needed(true, self.stage));
        }
        if !is_end(self.stage) {
            return send_or_rest(others, self.sent);
        }
        if !appended {
            return Step::Append;
        }
        if self.reported {
            Step::Rest
        } else {
            Step::Report
        }
    }

    /// What the place does next in a round.
    pub(crate) fn next_step<V: Datum, A: Datum>(
        &self,
        me: u8,
        view: &RoundView,
        inbox: &Inbox<V, A>,
    ) -> Step
        ensures next { todo_of result ≡ next_at me view.now inbox.now self.now }
        ensures place { place_to result < 64 }
        ensures rest { RestsOnceReported me view.now inbox.now self.now }
    {
        let others = others_of(view.parties, me);
        if !self.computed {
            return compute_or_wait(inbox, view.epoch, others, needed(false, self.stage));
        }
        if !is_end(self.stage) {
            return send_or_rest(others, self.sent);
        }
        if self.reported {
            Step::Rest
        } else {
            Step::Report
        }
    }

    /// Whether the new values are computed, and so staged in the pending copies.
    pub(crate) fn has_new_values(&self) -> bool
        ensures { result ≡ has_new_values self.now.exchange }
    {
        match self.stage {
            Stage::Update => self.computed,
            Stage::Signal | Stage::Call | Stage::End => true,
            Stage::Gather | Stage::Ask | Stage::Grant => false,
        }
    }

    /// The stage.
    pub fn stage(&self) -> Stage
        ensures { result ≡ self.now.exchange.stage }
    {
        self.stage
    }

    /// Notes that the stage is computed. Where there is no other party the next stage begins, except after the end. It
    /// takes no memory.
    pub fn note_computed(&mut self, others: PlaceSet)
        requires { self.old.exchange.computed ≡ false }
        ensures { self.new ≡ record self.old { exchange = computed (unsent others []) self.old.exchange } }
    {
        if is_end(self.stage) {
            self.computed = true;
        } else {
            *self = passed_line(unsent(others, PlaceSet::none()), self.stage, self.sent);
        }
    }

    /// Notes that the place has reported. It takes no memory.
    pub fn note_reported(&mut self)
        requires computed { IsTrue self.old.exchange.computed }
        requires end { IsTrue (is_end self.old.exchange.stage) }
        ensures { self.new ≡ record self.old { reported = true } }
    {
        self.reported = true;
    }
}

/// The line at a computed stage, which is passed where no party is left to send to.
fn passed_line(left: Option<u8>, stage: Stage, sent: PlaceSet) -> PlaceRound
    ensures { result ≡ record {
      exchange = passed left (record { stage = stage; computed = true; sent = sent });
      reported = false;
    } }
{
    match left {
        Some(_) => PlaceRound {
            stage,
            computed: true,
            sent,
            reported: false,
        },
        None => PlaceRound::before(stage_after(stage)),
    }
}

/// The parties without one of them.
pub fn others_of(parties: PlaceSet, me: u8) -> PlaceSet
    ensures { result ≡ without_place parties me }
{
    // A look into the set tells that its places are below 64.
    let _places = parties.has(0);
    if me < 64 {
        parties.without(me)
    } else {
        parties
    }
}

/// Computes a stage where the batches that it needs are there, or else waits for the first that is missing.
fn compute_or_wait<V: Datum, A: Datum>(
    inbox: &Inbox<V, A>,
    epoch: u64,
    others: PlaceSet,
    needs: Option<Stage>,
) -> Step
    ensures next { todo_of result ≡ compute_or_wait inbox.now epoch others needs }
    ensures place { place_to result < 64 }
{
    let Some(needs) = needs else {
        return Step::Compute;
    };
    match inbox.has_all(epoch, needs, others) {
        None => Step::Compute,
        Some(from) => Step::Wait(needs, from),
    }
}

/// Sends to the least party to which nothing was sent.
fn send_or_rest(others: PlaceSet, sent: PlaceSet) -> Step
    ensures next { todo_of result ≡ send_or_rest (unsent others sent) }
    ensures place { place_to result < 64 }
{
    match unsent(others, sent) {
        None => Step::Rest,
        Some(to) => Step::Send(to),
    }
}

/// The stage whose batches a stage of a rebuild, or of a round, needs.
fn needed(rebuild: bool, stage: Stage) -> Option<Stage>
    ensures { result ≡ needed rebuild stage }
{
    match stage {
        Stage::Gather | Stage::Ask => None,
        Stage::Update => Some(Stage::Gather),
        Stage::Signal => Some(Stage::Update),
        Stage::Call => Some(Stage::Signal),
        Stage::Grant => Some(Stage::Ask),
        Stage::End if rebuild => Some(Stage::Grant),
        Stage::End => Some(Stage::Call),
    }
}

/// The stage that follows; none follows the end.
fn stage_after(stage: Stage) -> Stage
    ensures { result ≡ stage_after stage }
{
    match stage {
        Stage::Gather => Stage::Update,
        Stage::Update => Stage::Signal,
        Stage::Signal => Stage::Call,
        Stage::Call | Stage::Grant | Stage::End => Stage::End,
        Stage::Ask => Stage::Grant,
    }
}

/// Whether the batches of a stage are made of the targets of what woke: those of Signal and of Call. Such a batch that
/// comes to a place changes nothing of the targets there.
pub fn is_of_targets(stage: Stage) -> bool
    ensures { result ≡ is_of_targets stage }
{
    match stage {
        Stage::Signal | Stage::Call => true,
        _ => false,
    }
}

/// Whether it is the end, of a round or of a rebuild.
pub fn is_end(stage: Stage) -> bool
    ensures { result ≡ is_end stage }
{
    match stage {
        Stage::End => true,
        _ => false,
    }
}

/// The least of the other parties to which nothing was sent.
fn unsent(others: PlaceSet, sent: PlaceSet) -> Option<u8>
    ensures unsent { result ≡ unsent others sent }
    ensures place { IfSome result (λ q. q < 64) }
{
    others.difference(sent).first()
}
