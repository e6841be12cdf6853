// Ranks of small graphs that are not cut.
ghost use Rattle.std.specs.Prelude.{◌<◌, length};

use gr_edges::read_graph;
use gr_sum::Rank;
use gr_uncut::plain_rounds;
use std::alloc::Global;
use std::process::Abort;
use std::test::Fail;

fn ranks_are(
    rt: &impl Abort,
    alloc: Global,
    text: &[u8],
    limit: u32,
    last: u32,
    ranks: &[u64],
) -> Result<(), Fail>
    requires { length text.now < 1000 }
{
    let graph = read_graph(alloc, text, false)?;
    let end = plain_rounds(alloc, &graph, &Rank, limit)?;
    assert_eq!(rt; end.last, last);
    assert_eq!(rt; end.values.len(), ranks.len());
    for (value, rank) in end.values.as_slice().iter().zip(ranks) {
        assert_eq!(rt; value.value.0, *rank);
    }
    Ok(())
}

#[test]
fn ranks_of_small_graphs(rt: HostRuntime) -> Result<(), Fail> {
    let alloc = rt.alloc();
    ranks_are(&rt, alloc, b"", 9, 0, &[])?;
    ranks_are(&rt, alloc, b"7", 9, 1, &[150000])?;
    ranks_are(&rt, alloc, b"0 1", 0, 0, &[1000000, 1000000])?;
    ranks_are(&rt, alloc, b"0 1", 1, 1, &[150000, 1000000])?;
    ranks_are(&rt, alloc, b"0 1", 9, 2, &[150000, 277500])?;
    ranks_are(&rt, alloc, b"0 1\n0 1\n1 1", 9, 2, &[150000, 1850000])
}
