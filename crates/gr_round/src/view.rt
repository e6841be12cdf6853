use gr_base::PlaceSet;

/// What a place goes by in a round: the epoch, how many rounds are committed, the places that take part, the serial of
/// the next batch, and the threshold above which a vertex is high.
#[derive(Clone, Copy, Debug, PartialEq, Eq)]
pub struct RoundView {
    pub epoch: u64,
    pub round: u32,
    pub parties: PlaceSet,
    pub serial: u64,
    pub theta: u32,
}
