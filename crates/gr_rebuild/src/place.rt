use gr_base::PlaceSet;
use gr_copies::RebuildView;

/// What a place goes by in a recovery or a repair: its own number, the epoch, the other parties, whether it is a
/// repair, and the view of the copies that are rebuilt.
#[derive(Clone, Copy, Debug, PartialEq, Eq)]
pub struct PlaceInRebuild {
    pub place: u8,
    pub epoch: u64,
    pub others: PlaceSet,
    pub repair: bool,
    pub view: RebuildView,
}
