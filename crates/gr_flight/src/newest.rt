ghost use Rattle.std.specs.Prelude.{◌≡◌, ◌<◌, ◌≤◌, List, [], ◌∷◌, ◌++◌, nat_lt, if◌then◌else◌};
ghost use Rattle.gr_batch.specs.declared.batch.Batch.{Batch};
ghost use Rattle.gr_batch.specs.Stages.{code_of};
ghost use Rattle.gr_flight.specs.SendersThere.{KnowsSenders};

use gr_base::PlaceSet;
use gr_batch::{Batch, Stage, stage_of};
use gr_program::Datum;

/// The newest epoch of the batches in an inbox, and for each stage the senders whose batch of that epoch is there.
///
/// A sender that is no place below 64 stands in none of the sets.
#[derive(Clone, Copy, Debug, Drop)]
pub(crate) struct NewestEpoch {
    pub(crate) epoch: u64,
    pub(crate) senders: [PlaceSet; 7],
}

/// The place of a stage among the sets of senders.
pub(crate) fn index_of(stage: Stage) -> usize
    ensures code { result ≡ code_of stage }
    ensures inside { result < 7 }
{
    match stage {
        Stage::Gather => 0,
        Stage::Update => 1,
        Stage::Signal => 2,
        Stage::Call => 3,
        Stage::Ask => 4,
        Stage::Grant => 5,
        Stage::End => 6,
    }
}

impl NewestEpoch {
    /// What is known of an inbox without batches.
    pub(crate) fn of_none<V: Datum, A: Datum>() -> NewestEpoch
        ensures { KnowsSenders {V = V} {A = A} result [] }
    {
        NewestEpoch {
            epoch: 0,
            senders: [PlaceSet::none(); 7],
        }
    }

    /// What is known of the same inbox once an epoch has begun: if it is a later one, no batch of it is there.
    pub(crate) fn since<V: Datum, A: Datum>(self, epoch: u64) -> NewestEpoch
        ensures epoch { result.epoch ≡ if nat_lt self.epoch epoch then epoch else self.epoch }
        ensures at_least { epoch ≤ result.epoch }
        ensures senders { (inbox : List (Batch V A)) → KnowsSenders self inbox → KnowsSenders result inbox }
    {
        if self.epoch < epoch {
            return NewestEpoch {
                epoch,
                senders: [PlaceSet::none(); 7],
            };
        }
        self
    }

    /// What is known of the inbox with one batch more.
    pub(crate) fn with<V: Datum, A: Datum>(self, batch: &Batch<V, A>) -> NewestEpoch
        ensures { (inbox : List (Batch V A)) → KnowsSenders self inbox → KnowsSenders result (inbox ++ batch.now ∷ []) }
    {
        let mut newest = self.since::<V, A>(batch.epoch);
        if batch.epoch < newest.epoch {
            return newest;
        }
        if batch.sender >= 64 {
            return newest;
        }
        let i = index_of(stage_of(batch));
        newest.senders[i] = newest.senders[i].with(batch.sender);
        newest
    }
}
