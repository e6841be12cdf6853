//! The laws of whole runs: what every event keeps, how runs end, and how long they are.
#![tactic(auto)]

ghost use Rattle.gr_agree.specs.Bounds.{LeavesLess, LeftIsBounded, StepsByOne, CopiesNoHiddenValue};
ghost use Rattle.gr_agree.specs.Bounds.{EveryRunEnds, FinishIsShort, StretchIsShort};
ghost use Rattle.gr_agree.specs.Headline.{Headline};
ghost use Rattle.gr_agree.specs.Laws.{KeepsInsideAnEpoch, HoldsAfterEveryEvent};
ghost use Rattle.gr_law_runs.specs.Crashes.{FewCrashesAreBorne};
ghost use Rattle.gr_law_runs.specs.ToGo.{CanonicalEventsGoOn, EventsAddFew, ToGoIsBounded};
ghost use Rattle.gr_law_runs.specs.Ends.{EveryRunAgrees};
ghost use Rattle.gr_law_runs.specs.Events.{EventsKeepButInARebuild};
ghost use Rattle.gr_law_runs.specs.Left.{EpochsAreTold, NeverLeavesMore};
ghost use Rattle.gr_law_runs.specs.Runs.{PlainRunsGiveTheResult, PlainSchedulesGiveTheResult, FinishIsOver};
ghost use Rattle.gr_law_runs.specs.Undisturbed.{PlainEventsDisturbNothing};

/// Where rounds go on or are done and every place is up, a work, a delivery, a drop or a barrier leaves it so, for the
/// same graph and the same limit of rounds.
pub fn plain_events_disturb_nothing<V, A>()
    ensures { PlainEventsDisturbNothing V A }
{}

/// From load, whatever works, deliveries, drops and barriers come and in whatever order: where the run is done, it is
/// done at the last round of the graph that is not cut, and the masters' values are those of that round.
pub fn plain_runs_give_the_result<V, A>()
    ensures { PlainRunsGiveTheResult V A }
{}

/// So it is, after any number of steps, with the events of a schedule that has no crash, recovery, repair or discard.
pub fn plain_schedules_give_the_result<V, A>()
    ensures { PlainSchedulesGiveTheResult V A }
{}

/// A whole run whose last line is `finish` is over.
pub fn finish_is_over<V, A>()
    ensures { FinishIsOver V A }
{}

/// Until the run is over something is left, and each canonical event inside an epoch leaves less, in every mode. So a
/// cluster to which only canonical events come never stands still.
pub fn each_event_leaves_less<V, A>()
    ensures { LeavesLess V A }
{}

/// Whatever event comes, a crash or a drop too: as long as the epoch stays, no more is left than before.
pub fn no_event_leaves_more<V, A>()
    ensures { NeverLeavesMore V A }
{}

/// What is left is bounded by the batches in flight and the square of the number of places that take part.
pub fn what_is_left_is_bounded<V, A>()
    ensures { LeftIsBounded V A }
{}

/// A step of any cluster, whether it agrees with a committed state or not, adds at most one to the epoch, the commits,
/// the rounds, the serial and the batches in flight, and lowers none of these but the last.
pub fn steps_raise_by_one<V, A>()
    ensures { StepsByOne V A }
{}

/// A step raises the epoch exactly if its outcome is a failure, a commit, a new epoch or a discard, and then by one.
pub fn epochs_are_told<V, A>()
    ensures { EpochsAreTold V A }
{}

/// An event that is no crash and leaves the epoch as it is changes nothing that is committed, and keeps the invariant
/// for the same committed state: works in rounds and in rebuilds, deliveries, drops, barriers that decide nothing, and
/// orders that open nothing. It keeps the mode too, except a recovery that finds a lost vertex, which ends the run.
pub fn what_is_inside_an_epoch_keeps<V, A>()
    ensures { KeepsInsideAnEpoch V A }
{}

/// Every event leaves a cluster that agrees with a committed state of the same graph: works, deliveries and drops,
/// barriers that commit a round, find a failure or decide nothing, crashes, and whatever opens or drops a rebuild. Only
/// the works and the barriers of a rebuild that is open are not spoken of. The limit of rounds stays.
pub fn every_event_keeps_but_in_a_rebuild<V, A>()
    ensures { EventsKeepButInARebuild V A }
{}

/// Every event keeps the invariant, and the graph that the committed logs say.
pub fn every_event_keeps<V, A>()
    ensures { HoldsAfterEveryEvent V A }
{}

/// From load, after any number of steps of any schedule, a cluster agrees with a committed state of the graph that was
/// loaded, its logs say that graph, and the limit of rounds is that of the job.
pub fn every_run_agrees<V, A>()
    ensures { EveryRunAgrees V A }
{}

/// Every whole run from load of a lawful program on an accepted graph, job and schedule ends as it must, whatever
/// places crash and however its events interleave. If it is done, it prints exactly the result of the synchronous
/// rounds of the graph that is not cut. If it has lost vertices, it names exactly the vertices of the graph all of
/// whose holders are dead, and there is one: no live place holds it, and each other vertex has a holder that is not
/// dead. Else it says that the schedule ended early, and after how many rounds. A run whose crashes since the last
/// restored state are at most as many as the copies bear loses nothing, and one whose last line is `finish` never ends
/// early.
pub fn every_run_ends_as_it_must<V, A>()
    ensures { Headline V A }
{}

/// Along every run from load under a forgetful program no batch tells a value of a vertex without readers, whether it
/// is delivered, in flight or in an inbox, and of whichever epoch it is: a round sends no new value of one, and a
/// rebuild grants it without its value.
pub fn no_hidden_value_is_copied<V, A>()
    ensures { CopiesNoHiddenValue V A }
{}

/// From every cluster that meets the invariant the events of `finish` inside one epoch are no more than what is left at
/// its start, and so than the batches in flight, eight times the square of the places that take part, and one.
pub fn a_stretch_is_short<V, A>()
    ensures { StretchIsShort V A }
{}

/// From every cluster that meets the invariant `finish` plays events in at most three stretches beside one for each
/// round that it commits. A stretch ends with an event that opens an epoch, and the last with the last event. The three
/// end with a failure that is still to be found, with the opening of a recovery, and with the commit of the rebuild.
pub fn finish_is_short<V, A>()
    ensures { FinishIsShort V A }
{}

/// From every cluster that meets the invariant every schedule ends: some number of steps leaves none.
pub fn every_run_ends<V, A>()
    ensures { EveryRunEnds V A }
{}

/// Each canonical event lowers the measure `to_go`, in every mode. It leaves no more batches in flight than there were,
/// or one, and it names only places of the cluster.
pub fn canonical_events_go_on<V, A>()
    ensures { CanonicalEventsGoOn V A }
{}

/// Whatever event comes, a crash or a drop too, raises the measure by less than four whole epochs.
pub fn events_add_few<V, A>()
    ensures { EventsAddFew V A }
{}

/// The measure is at most the batches in flight, and one whole epoch for each round below the limit and four beside.
pub fn to_go_is_bounded<V, A>()
    ensures { ToGoIsBounded V A }
{}

/// A run from load is within its budget of losses if the crash lines of its schedule are no more than the losses that
/// the job bears, and fewer than the places.
pub fn few_crashes_are_borne<V, A>()
    ensures { FewCrashesAreBorne V A }
{}
