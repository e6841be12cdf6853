//! The laws of crashes and rebuilds: a crash, a new epoch and the work of a rebuild keep the invariant, and the commit
//! of a rebuild leads to the same values under new masters and holders.
#![tactic(auto)]

ghost use Rattle.gr_agree.specs.Laws.{KeepsAfterLoss, KeepsInANewEpoch, CommitsARebuild};
ghost use Rattle.gr_law_rebuilds.specs.Epoch.{DiscardKeeps, DiscardOfRecoveryKeeps, FailureKeeps};
ghost use Rattle.gr_law_rebuilds.specs.Epoch.{RecoveryKeeps, RepairKeeps, UnopenedKeeps};
ghost use Rattle.gr_law_rebuilds.specs.Rebuild.{WorkKeepsInARebuild};
ghost use Rattle.gr_law_rebuilds.specs.Restore.{RebuildKeepsTheGraph};

/// A crash takes one place from those that are up, and the cluster agrees with the same committed state, whatever the
/// place was doing and whatever of its log's tail stays.
pub fn a_loss_keeps<V, A>()
    ensures { KeepsAfterLoss V A }
{}

/// A repair that opens changes nothing that is committed, and the cluster agrees with the same committed state.
pub fn a_repair_keeps<V, A>()
    ensures { RepairKeeps V A }
{}

/// After a barrier that finds crashed places those of the live places are live that are up. Nothing that is committed
/// has changed there, nor in any log, and the cluster agrees with the same committed state: the crashed places are
/// dead, and the hosts of reborn places are back among the spares.
pub fn a_failure_keeps<V, A>()
    ensures { FailureKeeps V A }
{}

/// A discard of a round or of a repair changes nothing that is committed, and the cluster agrees with the same
/// committed state.
pub fn a_discard_keeps<V, A>()
    ensures { DiscardKeeps V A }
{}

/// A discard of a recovery leaves the live places as they are, and changes nothing that is committed there, nor in any
/// log. The cluster agrees with the same committed state: the hosts of reborn places are back among the spares.
pub fn a_discard_of_a_recovery_keeps<V, A>()
    ensures { DiscardOfRecoveryKeeps V A }
{}

/// A recovery that opens leaves the live places as they are, and changes nothing that is committed there, nor in any
/// log. The cluster agrees with the same committed state: each reborn place begins the epoch with what its committed
/// log says, without values, and some holder of each vertex is not dead.
pub fn a_recovery_keeps<V, A>()
    ensures { RecoveryKeeps V A }
{}

/// Every event that opens a new epoch without a commit is a failure, a recovery, a repair or a discard. It changes
/// nothing that is committed at a place that stays live, nor in any committed log, and the cluster agrees with the same
/// committed state.
pub fn a_new_epoch_keeps<V, A>()
    ensures { KeepsInANewEpoch V A }
{}

/// A recovery, a repair and a discard that open no epoch change nothing that is committed, and the cluster agrees with
/// the same committed state. So it is where a recovery finds a vertex lost, which changes the mode alone.
pub fn what_opens_nothing_keeps<V, A>()
    ensures { UnopenedKeeps V A }
{}

/// After the commit of a rebuild the cluster agrees with the same graph, values and active vertices, with the new
/// masters and holders: each party has what the new committed state gives its place, in its rows and edges and in its
/// log. A vertex without readers whose master died is due, since its value is owed.
pub fn a_rebuild_commits<V, A>()
    ensures { CommitsARebuild V A }
{}

/// The commit of a rebuild leaves the vertices with their degrees, and the edges, that the committed logs say: what is
/// on disk is the same graph, at the places that are not retired then.
pub fn a_rebuild_keeps_the_graph<V, A>()
    ensures { RebuildKeepsTheGraph V A }
{}

/// A work of a place changes nothing that is committed, and keeps the invariant for the same committed state, in each
/// of its cases while a recovery or a repair is open: an install, an adoption, the computing of a stage, a send, an
/// append to the log, a report, a wait and a rest.
pub fn work_keeps_in_a_rebuild<V, A>()
    ensures { WorkKeepsInARebuild V A }
{}
