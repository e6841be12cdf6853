//! The hybrid cut: at which place each edge of a graph stands.
//!
//! The edges into a vertex of low in-degree stand together at its master. Those into a vertex of high in-degree are
//! spread over the masters of their sources.
#![tactic(auto)]

mod place;
mod place_edges;

pub use place::{edge_place, is_high};
pub use place_edges::{PlaceEdges, cut};

#[cfg(test)]
mod tests {
    use super::*;
    use gr_edges::read_graph;
    use std::test::Fail;

    #[test]
    fn edges_into_a_high_vertex_stand_with_their_sources(rt: HostRuntime) -> Result<(), Fail> {
        let alloc = rt.alloc();
        let graph = read_graph(alloc, b"0 1\n1 2\n0 2", false)?;
        let low = cut(alloc, &graph, 2, 2)?;
        assert_eq!(rt; low.at(0), [1, 2].as_slice());
        assert_eq!(rt; low.at(1), [0].as_slice());
        let high = cut(alloc, &graph, 2, 1)?;
        assert_eq!(rt; high.at(0), [2].as_slice());
        assert_eq!(rt; high.at(1), [0, 1].as_slice());
        Ok(())
    }
}
