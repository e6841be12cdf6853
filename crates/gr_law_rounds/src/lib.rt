//! The laws of rounds: a loaded cluster agrees with the state before the first round, what happens while no rebuild is
//! open keeps the invariant, and the commit of a round leads to the state of the next one.
#![tactic(auto)]

ghost use Rattle.gr_agree.specs.Laws.{CommitsARound, HoldsAtLoad};
ghost use Rattle.gr_law_rounds.specs.Commit.{BarrierKeeps};
ghost use Rattle.gr_law_rounds.specs.Logs.{LogsSayTheGraph};
ghost use Rattle.gr_law_rounds.specs.Network.{DeliveryKeeps, DropKeeps};
ghost use Rattle.gr_law_rounds.specs.Round.{WorkKeepsInARound};

/// A delivery changes nothing that is committed, and keeps the invariant for the same committed state, in every mode
/// and whatever becomes of the batch.
pub fn delivery_keeps<V, A>()
    ensures { DeliveryKeeps V A }
{}

/// A drop changes nothing that is committed, and keeps the invariant for the same committed state.
pub fn drop_keeps<V, A>()
    ensures { DropKeeps V A }
{}

/// A work of a place changes nothing that is committed, and keeps the invariant for the same committed state, in each
/// of its cases where no rebuild is open: an install, an adoption, the computing of a stage, a send, a report, a wait
/// and a rest.
pub fn work_keeps_in_a_round<V, A>()
    ensures { WorkKeepsInARound V A }
{}

/// After the commit of a round the cluster agrees with the committed state of the next round: what its places had
/// staged are the values and marks of that state, and the run is done exactly where that round is the last.
pub fn a_round_commits<V, A>()
    ensures { CommitsARound V A }
{}

/// A barrier that commits nothing and leaves the epoch as it is keeps what is committed and the invariant, for the same
/// committed state.
pub fn a_barrier_that_decides_nothing_keeps<V, A>()
    ensures { BarrierKeeps V A }
{}

/// The committed logs of the places that are not retired say the vertices with their degrees, and the edges, of the
/// committed state with which the cluster agrees, in every mode.
pub fn logs_say_the_graph<V, A>()
    ensures { LogsSayTheGraph V A }
{}

/// A loaded cluster agrees with the committed state before the first round, and its logs say the graph, for every
/// accepted graph and job.
pub fn a_loaded_cluster_agrees<V, A>()
    ensures { HoldsAtLoad V A }
{}
