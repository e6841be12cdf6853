//! The edges of a place, in two layers.
#![tactic(auto)]

mod arcs;
mod copies;
mod end;
mod index;

pub use arcs::Arcs;

#[cfg(test)]
mod tests {
    use super::*;
    use gr_base::{Edge, NumberedEdge, OutOfMemory};
    use std::test::Fail;

    fn edge(number: u32, src: u32, dst: u32) -> NumberedEdge {
        NumberedEdge {
            number,
            edge: Edge {
                src,
                dst,
                weight: 1,
            },
        }
    }

    fn stage(arcs: &mut Arcs, edge: NumberedEdge) -> Result<(), OutOfMemory> {
        if arcs.is_pending(edge.number) {
            return Ok(());
        }
        arcs.stage_edge(edge)
    }

    #[test]
    fn staged_edges_count_from_the_next_install_on(rt: HostRuntime) -> Result<(), Fail> {
        let mut arcs = Arcs::new(rt.alloc());
        stage(&mut arcs, edge(5, 0, 2))?;
        stage(&mut arcs, edge(1, 0, 1))?;
        stage(&mut arcs, edge(3, 1, 2))?;
        assert_eq!(rt; arcs.count(), 0);
        assert_eq!(rt; arcs.pending_count(), 3);
        assert_eq!(rt; arcs.into_vertex(2, 0), None);
        arcs.install();
        for (v, i, into, out) in [
            (0, 0, None, Some(edge(1, 0, 1))),
            (0, 1, None, Some(edge(5, 0, 2))),
            (1, 0, Some(edge(1, 0, 1)), Some(edge(3, 1, 2))),
            (2, 0, Some(edge(3, 1, 2)), None),
            (2, 1, Some(edge(5, 0, 2)), None),
            (2, 2, None, None),
        ] {
            assert_eq!(rt; arcs.into_vertex(v, i), into);
            assert_eq!(rt; arcs.out_of(v, i), out);
        }
        stage(&mut arcs, edge(4, 2, 0))?;
        assert_eq!(rt; arcs.is_pending(4), true);
        arcs.discard();
        assert_eq!(rt; arcs.is_pending(4), false);
        arcs.install();
        assert_eq!(rt; arcs.count(), 3);
        Ok(())
    }

    #[test]
    fn a_further_install_finds_the_edges_between(rt: HostRuntime) -> Result<(), Fail> {
        let mut arcs = Arcs::new(rt.alloc());
        stage(&mut arcs, edge(6, 2, 7))?;
        stage(&mut arcs, edge(2, 7, 7))?;
        arcs.install();
        stage(&mut arcs, edge(4, 9, 7))?;
        stage(&mut arcs, edge(0, 7, 2))?;
        assert_eq!(rt; arcs.into_vertex(7, 1), Some(edge(6, 2, 7)));
        arcs.install();
        for (v, i, into, out) in [
            (7, 0, Some(edge(2, 7, 7)), Some(edge(0, 7, 2))),
            (7, 1, Some(edge(4, 9, 7)), Some(edge(2, 7, 7))),
            (7, 2, Some(edge(6, 2, 7)), None),
            (2, 0, Some(edge(0, 7, 2)), Some(edge(6, 2, 7))),
            (9, 0, None, Some(edge(4, 9, 7))),
            (8, 0, None, None),
            (u32::MAX, usize::MAX, None, None),
        ] {
            assert_eq!(rt; arcs.into_vertex(v, i), into);
            assert_eq!(rt; arcs.out_of(v, i), out);
        }
        Ok(())
    }
}
