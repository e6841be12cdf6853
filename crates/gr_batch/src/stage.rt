/// A stage of the work of a place: four exchanges of a round, two of a rebuild, and the end of either.
#[derive(Clone, Copy, Debug, PartialEq, Eq)]
pub enum Stage {
    Gather,
    Update,
    Signal,
    Call,
    Ask,
    Grant,
    End,
}
