use gr_base::PlaceSet;

/// A copy of a vertex at a place: its degrees, who holds copies and which of the holders is the master, its value
/// where this copy keeps one, and whether the vertex is to be applied in the next round.
#[derive(Clone, Copy, Debug, PartialEq, Eq)]
pub struct VertexCopy<V> {
    pub vertex: u32,
    pub indeg: u32,
    pub outdeg: u32,
    pub master: u8,
    pub holders: PlaceSet,
    pub value: Option<V>,
    pub due: bool,
}
