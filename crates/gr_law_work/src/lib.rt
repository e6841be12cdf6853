//! What the invariant gives for the work of a place, in a round and in a rebuild.
#![tactic(auto)]

ghost use Rattle.gr_law_work.specs.InRound.{APlaceMayAct};
ghost use Rattle.gr_law_work.specs.InRebuild.{APlaceMayRebuild};

/// Where a round is open, a place that is up, has installed every commit and has adopted the epoch has all that the
/// work of a place in a round needs; what it does next in the cluster is what it does next in the round.
pub fn a_place_may_act<V, A>()
    ensures { APlaceMayAct V A }
{}

/// Where a recovery or a repair is open, a place that is up, has installed every commit and has adopted the epoch has
/// what the work of a place in a rebuild needs of the logs, of its copies, edges and inbox, and of the coordinator;
/// what it does next in the cluster follows from its line and its inbox.
pub fn a_place_may_rebuild<V, A>()
    ensures { APlaceMayRebuild V A }
{}
