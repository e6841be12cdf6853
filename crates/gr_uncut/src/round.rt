ghost use Rattle.std.specs.Prelude.{◌≡◌, ◌<◌, ◌≤◌, ◌+◌, ◌^◌, length, IfOk, OnOk};
ghost use Rattle.std.specs.List.{All};
ghost use Rattle.gr_edges.specs.Vertices.{ids};
ghost use Rattle.gr_program.specs.Rounds.{state_after};
ghost use Rattle.gr_uncut.specs.Index.{IsIndex};
ghost use Rattle.gr_uncut.specs.Round.{Holds};

use crate::gather::{new_values, put_values};
use crate::index::Index;
use crate::wake::{in_order, woken};
use gr_base::{Items, OutOfMemory};
use gr_edges::Graph;
use gr_program::VertexProgram;
use std::alloc::Global;

/// One round after `done` rounds: changes the values, and gives the positions that are active next.
pub fn round<P: VertexProgram>(
    alloc: Global,
    graph: &Graph,
    index: &Index,
    program: &P,
    done: u32,
    values: &mut Items<P::Value>,
    active: &[u32],
    stamps: &mut Items<u32>,
) -> Result<Items<u32>, OutOfMemory>
    requires count { length graph.now.vertices ≤ 1048576 }
    requires index { IsIndex graph.now.edges (ids graph.now.vertices) index.now }
    requires before { Holds (P.program_of program.now) (ids graph.now.vertices)
        (state_after (P.program_of program.now) graph.now.edges done) values.old active.now }
    requires long { length stamps.old ≡ length graph.now.vertices }
    requires stamps { All (λ stamp. stamp ≤ done) stamps.old }
    requires room { done + 1 < 2 ^ 32 }
    ensures after { IfOk result (λ next.
        Holds (P.program_of program.now) (ids graph.now.vertices)
        (state_after (P.program_of program.now) graph.now.edges (done + 1)) values.new next) }
    ensures long { OnOk result (length stamps.new ≡ length graph.now.vertices) }
    ensures stamps { OnOk result (All (λ stamp. stamp ≤ done + 1) stamps.new) }
{
    let _count = graph.vertex_count();
    let vertices = graph.vertices.as_slice();
    let new = new_values(alloc, vertices, index, program, values.as_slice(), active)?;
    let next = woken(
        alloc,
        index,
        program,
        values.as_slice(),
        active,
        new.as_slice(),
        done + 1,
        stamps,
    )?;
    let next = in_order(alloc, next, done + 1, stamps.as_slice())?;
    put_values(values, active, new.as_slice());
    Ok(next)
}
