ghost use Rattle.std.specs.Prelude.{◌≡◌};
ghost use Rattle.gr_arcs.specs.End.{vertex_at};

use gr_base::Edge;

/// An end of an edge.
#[derive(Clone, Copy)]
pub enum End {
    Source,
    Target,
}

impl End {
    /// The vertex at this end of an edge.
    pub fn of(self, edge: &Edge) -> u32
        ensures { result ≡ vertex_at self edge.now }
    {
        match self {
            End::Source => edge.src,
            End::Target => edge.dst,
        }
    }
}
