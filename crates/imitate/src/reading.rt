ghost use Rattle.std.specs.Prelude.{◌≡◌, ◌<◌, ◌≤◌, ◌^◌, ◌⊎◌, Ok, Err, length, IfOk, IfErr};
ghost use Rattle.std.specs.List.{AllByRecursion as Each};
ghost use Rattle.gr_edges.specs.Vertices.{ids};
ghost use Rattle.imitate.specs.Reading.{task_of, plan_of};
ghost use Rattle.imitate.specs.Accepted.{task_in, plan_in, IsPlayable};

use crate::refusal::{Refusal, of_graph, of_job, of_schedule};
use gr_base::Items;
use gr_edges::{Graph, read_graph};
use gr_job::{Job, read_job};
use gr_sched::{Line, read_schedule};
use std::alloc::Global;

/// A job and a graph that were read.
#[derive(Drop)]
pub struct Work {
    pub job: Job,
    pub graph: Graph,
}

/// A job, a graph and the lines of a schedule that were read.
#[derive(Drop)]
pub struct Accepted {
    pub work: Work,
    pub lines: Items<Line>,
}

/// What a graph and a job say, or why one of them is refused: the job first.
pub fn read_work(alloc: Global, graph: &[u8], job: &[u8]) -> Result<Work, Refusal>
    requires { length graph.now ≤ 268435456 }
    ensures read { IfOk result (λ work. task_of graph.now job.now ≡ Ok (task_in work)) }
    ensures ids_fit { IfOk result (λ work. Each (λ v. v < 2 ^ 32) (ids work.graph.vertices)) }
    ensures few_edges { IfOk result (λ work. length work.graph.edges ≤ 4194304) }
    ensures few_vertices { IfOk result (λ work. length work.graph.vertices ≤ 1048576) }
    ensures refused { IfErr result (λ why. (why ≡ Refusal.OutOfMemory) ⊎ (task_of graph.now job.now ≡ Err why)) }
{
    let job = match read_job(alloc, job) {
        Ok(job) => job,
        Err(fault) => return Err(of_job(fault)),
    };
    let graph = match read_graph(alloc, graph, job.undirected) {
        Ok(graph) => graph,
        Err(fault) => return Err(of_graph(fault)),
    };
    Ok(Work { job, graph })
}

/// What a graph, a job and a schedule say, or why one of them is refused: the job first, and the schedule last.
pub fn read_plan(
    alloc: Global,
    graph: &[u8],
    job: &[u8],
    schedule: &[u8],
) -> Result<Accepted, Refusal>
    requires graph { length graph.now ≤ 268435456 }
    requires schedule { length schedule.now ≤ 268435456 }
    ensures read { IfOk result (λ a. plan_of graph.now job.now schedule.now ≡ Ok (plan_in a)) }
    ensures playable { IfOk result IsPlayable }
    ensures refused { IfErr result (λ why. (why ≡ Refusal.OutOfMemory)
        ⊎ (plan_of graph.now job.now schedule.now ≡ Err why)) }
{
    let work = match read_work(alloc, graph, job) {
        Ok(work) => work,
        Err(why) => return Err(why),
    };
    let lines = match read_schedule(alloc, schedule, work.job.places) {
        Ok(lines) => lines,
        Err(fault) => return Err(of_schedule(fault)),
    };
    Ok(Accepted { work, lines })
}
