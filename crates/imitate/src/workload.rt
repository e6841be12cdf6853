ghost use Rattle.std.specs.Prelude.{◌≡◌, ◌≤◌, ◌++◌, IfOk, OnOk};
ghost use Rattle.gr_job.specs.Values.{values_of};
ghost use Rattle.gr_sched.specs.Words.{word};
ghost use Rattle.gr_view.specs.declared.coordinator.Mode.TheVariants as mode;
ghost use Rattle.gr_cluster.specs.Ending.{results_of};
ghost use Rattle.imitate.specs.Words.{Asked, max_size};
ghost use Rattle.imitate.specs.Outcome.{Answers};
ghost use Rattle.imitate.specs.Workload.{workload_job, finite, sum_of, summary_text, IsSummary};

use crate::ended::Ended;
use crate::refusal::Refusal;
use gr_base::{OutOfMemory, push_number};
use gr_core::Cluster;
use gr_gen::{generate, schedule_of};
use gr_job::{Job, ProgramChoice};
use gr_min::{Distance, Shortest};
use gr_outside::{Files, Sink, SinkFault, write_whole};
use gr_play::{Ending, play};
use gr_program::ValueOf;
use std::alloc::Global;

/// Plays the schedule of a seed on a cluster over the generated graph, without a trace, and writes one line of the run.
pub fn workload<F: Files, O: Sink>(
    alloc: Global,
    seed: u32,
    size: u32,
    files: &mut F,
    out: &mut O,
) -> Result<Ended, Refusal>
    requires { size ≤ max_size }
    ensures { Answers (F.seen files.old) (F.seen files.new) (O.seen out.old) (O.seen out.new)
        (Asked.Load seed size) result }
{
    let text = match summary(alloc, seed, size, files) {
        Ok(text) => text,
        Err(OutOfMemory) => return Err(Refusal::OutOfMemory),
    };
    match write_whole(alloc, out, &text) {
        Ok(()) => Ok(Ended::Done),
        Err(SinkFault::Failed) => Err(Refusal::Output),
        Err(SinkFault::OutOfMemory) => Err(Refusal::OutOfMemory),
    }
}

// The line of the run. It is always done: the schedule has one crash, and each vertex outlives one.
fn summary<F: Files>(
    alloc: Global,
    seed: u32,
    size: u32,
    files: &mut F,
) -> Result<Vec<u8>, OutOfMemory>
    requires { size ≤ max_size }
    ensures text { IfOk result (λ text. IsSummary seed size text.items) }
    ensures files { F.seen files.new ≡ F.seen files.old }
{
    let graph = generate(alloc, seed, size)?;
    let lines = schedule_of(alloc, seed)?;
    let job = job();
    let mut cluster = Cluster::load(alloc, &graph, &job, Shortest { source: 0 })?;
    let mut events = 0;
    let ending = play(
        alloc,
        &mut cluster,
        lines.as_slice(),
        files,
        None,
        &mut events,
    );
    match ending {
        Ending::Done => line(alloc, &cluster, seed, size, events),
        Ending::Lost(_) => Err(OutOfMemory),
        Ending::Unfinished(_) => Err(OutOfMemory),
        Ending::TraceFault => Err(OutOfMemory),
        Ending::NoMemory => Err(OutOfMemory),
    }
}

// The shortest paths from vertex 0, on four places with one spare.
fn job() -> Job
    ensures { values_of result ≡ workload_job }
{
    Job {
        places: 4,
        spares: 1,
        losses: 1,
        theta: 100,
        rounds: 1000,
        undirected: false,
        program: ProgramChoice::Shortest(0),
    }
}

// The line of a run that is done, after so many events.
fn line(
    alloc: Global,
    cluster: &Cluster<Shortest>,
    seed: u32,
    size: u32,
    events: u64,
) -> Result<Vec<u8>, OutOfMemory>
    requires { cluster.now.cluster.coordinator.mode ≡ mode.Done }
    ensures { IfOk result (λ text. text.items
        ≡ summary_text seed size cluster.now.cluster.coordinator.round events
        (sum_of (results_of cluster.now.cluster))) }
{
    let values = cluster.results()?;
    let total = total(values.as_slice());
    let mut text = Vec::new(alloc);
    push_named(alloc, &mut text, b"load", u64::from(seed))?;
    push_named(alloc, &mut text, b"", u64::from(size))?;
    push_named(alloc, &mut text, b" vertices", u64::from(size / 4 + 1))?;
    push_named(alloc, &mut text, b" rounds", u64::from(cluster.rounds()))?;
    push_named(alloc, &mut text, b" events", events)?;
    push_named(alloc, &mut text, b" sum", total)?;
    text.push(b'\n')?;
    Ok(text)
}

// Appends a name and a number, with a blank between them.
fn push_named(alloc: Global, into: &mut Vec<u8>, name: &[u8], n: u64) -> Result<(), OutOfMemory>
    ensures { OnOk result (into.new.items ≡ into.old.items ++ name.now ++ word n) }
{
    into.extend_from_slice(name)?;
    into.push(b' ')?;
    push_number(alloc, into, n)?;
    Ok(())
}

// The sum of the distances, of which the infinite ones count nothing. It stays at the greatest number.
fn total(values: &[ValueOf<Distance>]) -> u64
    ensures { result ≡ sum_of values.now }
{
    let mut total: u64 = 0;
    for x in values {
        total = total.saturating_add(finite(*x));
    }
    total
}

fn finite(x: ValueOf<Distance>) -> u64
    ensures { result ≡ finite x }
{
    if x.value.0 == u64::MAX { 0 } else { x.value.0 }
}
