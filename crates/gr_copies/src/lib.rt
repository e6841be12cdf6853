//! Which places hold copies of a vertex: at load, and after places were lost.
#![tactic(auto)]

mod first;
mod further;
mod granter;
mod view;

pub use first::first_holders;
pub use further::extras;
pub use granter::acting_master;
pub use view::RebuildView;

#[cfg(test)]
mod tests {
    use super::*;
    use gr_cut::cut;
    use gr_edges::read_graph;
    use std::test::Fail;

    #[test]
    fn each_vertex_of_a_small_graph_has_two_copies(rt: HostRuntime) -> Result<(), Fail> {
        let alloc = rt.alloc();
        let graph = read_graph(alloc, b"0 1\n1 2\n0 2", false)?;
        let rows = cut(alloc, &graph, 3, 100)?;
        let directory = first_holders(alloc, &graph, &rows, 3, 1)?;
        let expected = [
            (0, 0, [true, true, true]),
            (1, 1, [false, true, true]),
            (2, 2, [true, false, true]),
        ];
        assert_eq!(rt; directory.len(), expected.len());
        for (copies, (vertex, master, holders)) in directory.as_slice().iter().zip(expected) {
            assert_eq!(rt; copies.vertex, vertex);
            assert_eq!(rt; copies.master, master);
            for p in 0..3u8 {
                assert_eq!(rt; copies.holders.has(p), holders[usize::from(p)]);
            }
        }
        Ok(())
    }
}
