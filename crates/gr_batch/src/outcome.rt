use crate::{Batch, Stage};
use gr_base::PlaceSet;
use gr_program::Datum;

/// What becomes of a delivered batch: it goes into the inbox, it is of an older epoch than the receiver's, or the
/// receiver is down.
#[derive(Clone, Copy, Debug, PartialEq, Eq)]
pub enum Fate {
    Taken,
    Stale,
    Down,
}

/// What came of an event.
///
/// Of work: the installed count, the adopted epoch, a computed stage, a batch sent by its serial, stage and receiver,
/// the bytes appended to the log, the vertices due next of a report, or the stage and the place that is waited for.
/// Of the network: a delivered batch and its fate, and the serial of a dropped one. Of a crash: the bytes of the log's
/// tail that were kept. Of the coordinator: the places that failed, a commit with the counts of commits and rounds and
/// the sum of the vertices due, a place that is not ready, a new epoch, the number of lost vertices, a discarded one.
#[derive(Debug, Drop)]
pub enum Outcome<V: Datum, A: Datum> {
    Idle,
    Installed(u64),
    Adopted(u64),
    Computed(Stage),
    Sent(u64, Stage, u8),
    Appended(u64),
    Ready(u32),
    Waiting(Stage, u8),
    Delivered(Batch<V, A>, Fate),
    Dropped(u64),
    Crashed(u32),
    Failed(PlaceSet),
    Committed(u64, u32, u32),
    NotReady(u8),
    Opened(u64),
    LostFound(u32),
    Discarded(u64),
}
