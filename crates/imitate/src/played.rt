ghost use Rattle.std.specs.Prelude.{◌≡◌, IfOk};
ghost use Rattle.gr_edges.specs.Vertices.{ids};
ghost use Rattle.gr_cluster.specs.Load.{load};
ghost use Rattle.gr_core.specs.Loaded.{setting_of};
ghost use Rattle.gr_play.specs.Playing.{start};
ghost use Rattle.imitate.specs.Chosen.{chosen, chosen_of};
ghost use Rattle.imitate.specs.Accepted.{IsPlayable, plan_in};
ghost use Rattle.imitate.specs.Running.{program_in, begin};
ghost use Rattle.imitate.specs.Playing.{PlaysRun};

use crate::reading::Accepted;
use crate::refusal::Refusal;
use crate::told::{Told, tell};
use gr_base::OutOfMemory;
use gr_core::Cluster;
use gr_job::ProgramChoice;
use gr_min::{Hops, Labels, Shortest};
use gr_outside::Files;
use gr_play::play;
use gr_program::VertexProgram;
use gr_sum::{Core, InDegree, Rank, Reach};
use std::alloc::Global;

/// Plays the schedule that was accepted, with its trace, on a cluster that runs the job's program.
pub fn play_plan<F: Files>(
    alloc: Global,
    accepted: Accepted,
    files: &mut F,
    trace: &str,
) -> Result<Told, Refusal>
    requires { IsPlayable accepted }
    ensures { PlaysRun (F.seen files.old) (F.seen files.new) trace.now (program_in (plan_in accepted))
        (begin (plan_in accepted)) result }
{
    let program = copied(alloc, &accepted.work.job.program)?;
    play_chosen(alloc, accepted, program, files, trace)
}

// The same choice once more.
fn copied(alloc: Global, program: &ProgramChoice) -> Result<ProgramChoice, OutOfMemory>
    ensures { IfOk result (λ copy. copy ≡ program.now) }
{
    match program {
        ProgramChoice::Shortest(source) => Ok(ProgramChoice::Shortest(*source)),
        ProgramChoice::Hops(source) => Ok(ProgramChoice::Hops(*source)),
        ProgramChoice::Labels => Ok(ProgramChoice::Labels),
        ProgramChoice::Rank => Ok(ProgramChoice::Rank),
        ProgramChoice::InDegree => Ok(ProgramChoice::InDegree),
        ProgramChoice::Core(k) => Ok(ProgramChoice::Core(*k)),
        ProgramChoice::Reach(seeds) => {
            let seeds = seeds.copy(alloc)?;
            Ok(ProgramChoice::Reach(seeds))
        }
    }
}

fn play_chosen<F: Files>(
    alloc: Global,
    accepted: Accepted,
    program: ProgramChoice,
    files: &mut F,
    trace: &str,
) -> Result<Told, Refusal>
    requires { IsPlayable accepted }
    ensures { PlaysRun (F.seen files.old) (F.seen files.new) trace.now (chosen_of program)
        (start (load (chosen_of program).program (setting_of accepted.work.job) accepted.work.graph.edges
        (ids accepted.work.graph.vertices)) accepted.lines) result }
{
    match program {
        ProgramChoice::Shortest(source) => {
            play_program(alloc, accepted, Shortest { source }, files, trace)
        }
        ProgramChoice::Hops(source) => {
            play_program(alloc, accepted, Hops { source }, files, trace)
        }
        ProgramChoice::Labels => play_program(alloc, accepted, Labels, files, trace),
        ProgramChoice::Rank => play_program(alloc, accepted, Rank, files, trace),
        ProgramChoice::InDegree => play_program(alloc, accepted, InDegree, files, trace),
        ProgramChoice::Core(k) => play_program(alloc, accepted, Core { k }, files, trace),
        ProgramChoice::Reach(seeds) => {
            play_program(alloc, accepted, Reach { seeds }, files, trace)
        }
    }
}

// Loads the cluster of a program, drops the graph, and plays the schedule on it.
fn play_program<P: VertexProgram, F: Files>(
    alloc: Global,
    accepted: Accepted,
    program: P,
    files: &mut F,
    trace: &str,
) -> Result<Told, Refusal>
    requires { IsPlayable accepted }
    ensures { PlaysRun (F.seen files.old) (F.seen files.new) trace.now
        (chosen (P.program_of program) P.Value.text_of P.Value.numbers_of P.Acc.numbers_of)
        (start (load (P.program_of program) (setting_of accepted.work.job) accepted.work.graph.edges
        (ids accepted.work.graph.vertices)) accepted.lines) result }
{
    let Accepted { work, lines } = accepted;
    let mut cluster = match Cluster::load(alloc, &work.graph, &work.job, program) {
        Ok(cluster) => cluster,
        Err(OutOfMemory) => return Err(Refusal::OutOfMemory),
    };
    drop(work);
    let mut steps = 0;
    let ending = play(
        alloc,
        &mut cluster,
        lines.as_slice(),
        files,
        Some(trace),
        &mut steps,
    );
    match tell(alloc, &cluster, &ending) {
        Ok(told) => Ok(told),
        Err(why) => Err(why),
    }
}
