ghost use Rattle.std.specs.Prelude.{◌≡◌, ◌≤◌, ◌⊎◌, Ok, Err, length, IfOk, IfErr};
ghost use Rattle.imitate.specs.Reading.{reply_of};

use crate::chosen::chosen_shown;
use crate::reading::{Work, read_work};
use crate::refusal::Refusal;
use std::alloc::Global;

/// The result text of a graph and a job, or why one of them is refused: the job first. The text of the graph is
/// dropped as soon as it is read.
pub fn reply(alloc: Global, graph: Vec<u8>, job: &[u8]) -> Result<Vec<u8>, Refusal>
    requires { length graph.items ≤ 268435456 }
    ensures shown { IfOk result (λ text. reply_of graph.items job.now ≡ Ok text.items) }
    ensures refused { IfErr result (λ why. (why ≡ Refusal.OutOfMemory) ⊎ (reply_of graph.items job.now ≡ Err why)) }
{
    let Work { job, graph: edges } = match read_work(alloc, &graph, job) {
        Ok(work) => work,
        Err(why) => return Err(why),
    };
    drop(graph);
    let text = chosen_shown(alloc, &edges, job.program, job.rounds)?;
    Ok(text)
}
