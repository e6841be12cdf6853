use gr_base::PlaceSet;

/// What a rebuild of copies goes by: the places that are live, those that are dead, those of the dead that start
/// anew on a spare, the number of places, the threshold of high vertices, the number of losses that the copies are
/// to bear, and whether the program is forgetful.
#[derive(Clone, Copy, Debug, PartialEq, Eq)]
pub struct RebuildView {
    pub live: PlaceSet,
    pub dead: PlaceSet,
    pub reborn: PlaceSet,
    pub places: u8,
    pub theta: u32,
    pub losses: u8,
    pub forgetful: bool,
}
