use gr_base::PlaceSet;

/// One atomic step of a cluster. Places are below 64, and batches in flight are counted from 0 in order of sending.
///
/// `Discarded` drops a batch, and `Discard` ends the open round or rebuild. `Crash` keeps so many bytes of the
/// uncommitted tail of the place's log.
#[derive(Clone, Copy, Debug, PartialEq, Eq)]
pub enum Event {
    Work(u8),
    Deliver(u32),
    Discarded(u32),
    Crash(u8, u32),
    Barrier,
    Recover(PlaceSet),
    Repair,
    Discard,
}

/// A line of a schedule: an event, or canonical events through the next commit, or canonical events to the end.
#[derive(Clone, Copy, Debug, PartialEq, Eq)]
pub enum Line {
    Step(Event),
    Settle,
    Finish,
}
