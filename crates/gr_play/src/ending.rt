use gr_base::Items;

/// How a schedule ended: the run is done; these vertices are lost; the schedule ended early, after so many committed
/// rounds; the trace could not be written; or memory ran out.
#[derive(Debug, Drop)]
pub enum Ending {
    Done,
    Lost(Items<u32>),
    Unfinished(u32),
    TraceFault,
    NoMemory,
}
