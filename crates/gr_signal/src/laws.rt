//! What follows from the cut for the signals of a place.

ghost use Rattle.gr_signal.specs.LowVertices.{LowAreNotSignalled};

/// Where the edges of a place stand by the cut, with the masters and in-degrees that its copies name, no low vertex is
/// in a Signal body from it to another place.
pub fn low_vertices_are_not_signalled<V>()
    ensures { LowAreNotSignalled V }
{}
