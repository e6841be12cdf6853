ghost use Rattle.std.specs.Prelude.{◌≡◌, length};
ghost use Rattle.gr_log.specs.Bytes.{record_bytes};

use gr_base::{NumberedEdge, PlaceSet};

/// A record of a log: a vertex of which the place holds a copy, or an edge that stands at the place. No value of a
/// vertex is logged. The last `Held` record of a vertex is the one that counts.
#[derive(Clone, Copy, Debug, PartialEq, Eq)]
pub enum LogRecord {
    Held {
        vertex: u32,
        indeg: u32,
        outdeg: u32,
        master: u8,
        holders: PlaceSet,
    },
    Kept(NumberedEdge),
}

impl LogRecord {
    // How many bytes it takes.
    pub(crate) fn size(&self) -> usize
        ensures { result ≡ length (record_bytes self.now) }
    {
        match self {
            LogRecord::Held { .. } => 22,
            LogRecord::Kept(_) => 17,
        }
    }
}
