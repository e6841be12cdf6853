ghost use Rattle.std.specs.Prelude.{◌≡◌};
ghost use Rattle.gr_cut.specs.Cut.{is_high as is_above, edge_place as place_by_masters};

/// Whether a vertex of this in-degree is high: more than `theta` edges end at it.
pub fn is_high(indeg: u32, theta: u32) -> bool
    ensures { result ≡ is_above theta indeg }
{
    indeg > theta
}

/// The place of an edge: the master of its target, or of its source where the target is high.
pub fn edge_place(master_src: u8, master_dst: u8, dst_high: bool) -> u8
    ensures { result ≡ place_by_masters master_src master_dst dst_high }
{
    if dst_high { master_src } else { master_dst }
}
