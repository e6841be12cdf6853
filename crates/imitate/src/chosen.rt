ghost use Rattle.std.specs.Prelude.{◌≡◌, ◌≤◌, length, IfOk};
ghost use Rattle.gr_program.specs.Result.{result_text};
ghost use Rattle.gr_edges.specs.Vertices.{ids};
ghost use Rattle.imitate.specs.Chosen.{chosen_text};

use gr_base::OutOfMemory;
use gr_edges::Graph;
use gr_job::ProgramChoice;
use gr_min::{Hops, Labels, Shortest};
use gr_program::VertexProgram;
use gr_report::push_results;
use gr_sum::{Core, InDegree, Rank, Reach};
use gr_uncut::plain_rounds;
use std::alloc::Global;

// The result text of a program's rounds over the graph.
fn shown<P: VertexProgram>(
    alloc: Global,
    graph: &Graph,
    program: P,
    limit: u32,
) -> Result<Vec<u8>, OutOfMemory>
    requires edges { length graph.now.edges ≤ 4194304 }
    requires vertices { length graph.now.vertices ≤ 1048576 }
    ensures { IfOk result (λ text. text.items
        ≡ result_text (P.program_of program) P.Value.text_of graph.now.edges (ids graph.now.vertices) limit) }
{
    let end = plain_rounds(alloc, graph, &program, limit)?;
    let mut text = Vec::new(alloc);
    push_results(alloc, &mut text, end.last, end.values.as_slice())?;
    Ok(text)
}

/// The result text of the chosen program's rounds over the graph.
pub fn chosen_shown(
    alloc: Global,
    graph: &Graph,
    program: ProgramChoice,
    limit: u32,
) -> Result<Vec<u8>, OutOfMemory>
    requires edges { length graph.now.edges ≤ 4194304 }
    requires vertices { length graph.now.vertices ≤ 1048576 }
    ensures { IfOk result (λ text. text.items ≡ chosen_text program graph.now.edges (ids graph.now.vertices) limit) }
{
    match program {
        ProgramChoice::Shortest(source) => shown(alloc, graph, Shortest { source }, limit),
        ProgramChoice::Hops(source) => shown(alloc, graph, Hops { source }, limit),
        ProgramChoice::Labels => shown(alloc, graph, Labels, limit),
        ProgramChoice::Rank => shown(alloc, graph, Rank, limit),
        ProgramChoice::InDegree => shown(alloc, graph, InDegree, limit),
        ProgramChoice::Core(k) => shown(alloc, graph, Core { k }, limit),
        ProgramChoice::Reach(seeds) => shown(alloc, graph, Reach { seeds }, limit),
    }
}
