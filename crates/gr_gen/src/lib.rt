//! Generated graphs and schedules, for runs under load.
#![tactic(auto)]

mod draws;
mod graph;
mod schedule;

pub use graph::generate;
pub use schedule::schedule_of;

#[cfg(test)]
mod tests {
    use super::*;
    use gr_edges::print_graph;
    use gr_sched::print_schedule;
    use std::test::Fail;

    #[test]
    fn graphs_and_a_schedule_of_seeds(rt: HostRuntime) -> Result<(), Fail> {
        let cases = [
            (0, 1, b"0\n0 0 1\n".as_slice()),
            (263, 4, b"0\n1\n0 0 1\n0 0 2\n0 0 3\n0 0 4\n"),
            (
                7,
                9,
                b"0\n1\n2\n2 2 1\n0 2 2\n1 2 3\n1 0 4\n1 1 5\n1 0 6\n2 2 7\n0 1 1\n0 0 2\n",
            ),
        ];
        let alloc = rt.alloc();
        for (seed, size, text) in cases {
            let graph = generate(alloc, seed, size)?;
            let mut into = Vec::new(alloc);
            print_graph(alloc, &graph, &mut into)?;
            assert_eq!(rt; into.as_slice(), text);
        }
        let lines = schedule_of(alloc, 6)?;
        let mut into = Vec::new(alloc);
        print_schedule(alloc, lines.as_slice(), &mut into)?;
        assert_eq!(rt;
            into.as_slice(),
            b"settle\ncrash 2\nsettle\nrepair\nfinish\n".as_slice()
        );
        Ok(())
    }
}
