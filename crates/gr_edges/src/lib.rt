//! The reader and the printer of graphs.
#![tactic(auto)]

mod build;
mod fault;
mod field;
mod graph;
mod id_set;
mod line;
mod number;
mod positions;
mod print;
mod read;
mod tally;
mod tree_ids;

pub use fault::GraphFault;
pub use graph::{Graph, VertexInfo};
pub use positions::{position_hints, position_of};
pub use print::print_graph;
pub use read::read_graph;

#[cfg(test)]
mod tests {
    use super::*;
    use gr_base::Edge;
    use std::test::Fail;

    const DIRECTED: &[u8] = b"# Directed graph\r\n# FromNodeId\tToNodeId\r\n0\t1\r\n1\t2";

    #[test]
    fn comments_returns_and_a_last_line_without_its_end(rt: HostRuntime) -> Result<(), Fail> {
        let alloc = rt.alloc();
        let graph = read_graph(alloc, DIRECTED, false)?;
        let mut text = Vec::new(alloc);
        print_graph(alloc, &graph, &mut text)?;
        assert_eq!(rt; text.as_slice(), b"0\n1\n2\n0 1 1\n1 2 1\n".as_slice());
        Ok(())
    }

    #[test]
    fn reverses_stand_behind_their_edges(rt: HostRuntime) -> Result<(), Fail> {
        let graph = read_graph(rt.alloc(), b"7 5 2\n5 5\n7 5\n9", true)?;
        let edges = [(7, 5, 2), (5, 7, 2), (5, 5, 1), (7, 5, 1), (5, 7, 1)];
        assert_eq!(rt; graph.edges.len(), edges.len());
        for (edge, (src, dst, weight)) in graph.edges.as_slice().iter().zip(edges) {
            assert_eq!(rt; *edge, Edge { src, dst, weight });
        }
        let vertices = [(5, 3, 3), (7, 2, 2), (9, 0, 0)];
        assert_eq!(rt; graph.vertices.len(), vertices.len());
        for (vertex, (id, indeg, outdeg)) in graph.vertices.as_slice().iter().zip(vertices) {
            assert_eq!(rt; *vertex, VertexInfo { id, indeg, outdeg });
        }
        Ok(())
    }

    #[test]
    fn texts_that_are_graphs(rt: HostRuntime) -> Result<(), Fail> {
        let cases = [
            (b"".as_slice(), b"".as_slice()),
            (b"\n \t\n\r\n%x\n  # 1.5", b""),
            (b"5", b"5\n"),
            (b"007\t4294967295", b"7\n4294967295\n7 4294967295 1\n"),
            (b"1 2 \r\n", b"1\n2\n1 2 1\n"),
            (b" 1  2\t3\t\n", b"1\n2\n1 2 3\n"),
            (b"#\r\n3 3 0\n3", b"3\n3 3 0\n"),
        ];
        let alloc = rt.alloc();
        for (text, printed) in cases {
            let graph = read_graph(alloc, text, false)?;
            let mut into = Vec::new(alloc);
            print_graph(alloc, &graph, &mut into)?;
            assert_eq!(rt; into.as_slice(), printed);
        }
        Ok(())
    }

    #[test]
    fn the_first_faulty_line_is_named(rt: HostRuntime) {
        let cases = [
            (
                b"0 1\n1 2\n0 2\n1 2.5\nx".as_slice(),
                GraphFault::BadLine(4),
            ),
            (b"4294967296 1", GraphFault::NumberTooLarge(1)),
            (b"# x\n\nx 4294967296", GraphFault::NumberTooLarge(3)),
            (b"1 2\n4294967296 1 1 1", GraphFault::NumberTooLarge(2)),
            (b"1 2 3 4", GraphFault::BadLine(1)),
            (b"1 2\r \n", GraphFault::BadLine(1)),
            (b"1 2\r\r\n", GraphFault::BadLine(1)),
            (b"1 -2", GraphFault::BadLine(1)),
            (b"1 2 # x", GraphFault::BadLine(1)),
            (b"1,2", GraphFault::BadLine(1)),
        ];
        for (text, fault) in cases {
            let found = read_graph(rt.alloc(), text, false);
            assert!(rt; matches!(found, Err(named) if named == fault));
        }
    }
}
