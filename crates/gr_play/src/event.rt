ghost use Rattle.std.specs.Prelude.{ℕ, ◌≡◌, ◌⊎◌, [], take, IsTrue, IfOk, OnOk, OnErr, IsErrOf};
ghost use Rattle.gr_outside.specs.Causes.{Rose};
ghost use Rattle.gr_batch.specs.Telling.{telling};
ghost use Rattle.gr_sched.specs.declared.event.Line.TheVariants as line;
ghost use Rattle.gr_sched.specs.Reading.{places_of, are_below};
ghost use Rattle.gr_report.specs.Goes.{goes_with};
ghost use Rattle.gr_report.specs.Trace.{outcome_line};
ghost use Rattle.gr_cluster.specs.Runs.{is_commit};
ghost use Rattle.gr_agree.specs.Agree.{Invariant};
ghost use Rattle.gr_play.specs.Inside.Progress.{PlaysEvent, FailsBefore, FailsAfter};
ghost use Rattle.gr_play.specs.Inside.Room.{HasRoom};
ghost use Rattle.gr_play.specs.Inside.Adding.{Adds};

use crate::append::append_whole;
use crate::stop::Stop;
use gr_base::OutOfMemory;
use gr_batch::Outcome;
use gr_core::Cluster;
use gr_outside::Files;
use gr_program::{Datum, VertexProgram};
use gr_report::push_outcome;
use gr_sched::Event;
use std::alloc::Global;

// The length of most lines, in bytes.
const LINE_SIZE: usize = 128;

/// Plays one event: the cluster takes the step, the step is counted, and where there is a trace its line is appended.
/// It answers whether the step was a commit.
pub(crate) fn play_event<P: VertexProgram, F: Files>(
    alloc: Global,
    cluster: &mut Cluster<P>,
    event: Event,
    files: &mut F,
    traced: bool,
    steps: &mut u64,
) -> Result<bool, Stop>
    requires places { IsTrue (are_below cluster.old.cluster.places (places_of (line.Step event))) }
    requires room { HasRoom cluster.old.cluster steps.old }
    requires begun { IsTrue traced → IsTrue (F.seen files.old).is_begun }
    ensures ok { IfOk result (λ commits. PlaysEvent (P.program_of cluster.old.program)
        (telling P.Value.numbers_of P.Acc.numbers_of) traced steps.old steps.new (F.seen files.old)
        (F.seen files.new) cluster.old.cluster event cluster.new.cluster commits) }
    ensures err { OnErr result (FailsBefore (P.program_of cluster.old.program)
        (telling P.Value.numbers_of P.Acc.numbers_of) traced steps.old steps.new (F.seen files.old)
        (F.seen files.new) cluster.old.cluster event cluster.new.cluster
        ⊎ FailsAfter (P.program_of cluster.old.program)
        (telling P.Value.numbers_of P.Acc.numbers_of) traced steps.old steps.new (F.seen files.old)
        (F.seen files.new) cluster.old.cluster event cluster.new.cluster) }
    ensures agrees { Invariant (P.program_of cluster.old.program) cluster.new.cluster }
    ensures program { cluster.new.program ≡ cluster.old.program }
    ensures fault { IsErrOf result Stop.TraceFault → IsTrue traced
        × Rose (F.seen files.old).write_faults (F.seen files.new).write_faults }
{
    let told = event;
    let taken = cluster.step(event);
    // A look at the mode tells that the cluster agrees with a committed state.
    let _mode = cluster.mode();
    match taken {
        Ok(outcome) => {
            *steps += 1;
            tell(alloc, told, &outcome, files, traced)
        }
        Err(_) => Err(Stop::NoMemory),
    }
}

// Tells a step that was taken: it appends its line where there is a trace, and answers whether it was a commit.
fn tell<V: Datum, A: Datum, F: Files>(
    alloc: Global,
    event: Event,
    outcome: &Outcome<V, A>,
    files: &mut F,
    traced: bool,
) -> Result<bool, Stop>
    requires goes { IsTrue (goes_with event outcome.now) }
    requires begun { IsTrue traced → IsTrue (F.seen files.old).is_begun }
    ensures commits { IfOk result (λ commits. commits ≡ is_commit outcome.now) }
    ensures ok { OnOk result (Adds traced (F.seen files.old) (F.seen files.new)
        (outcome_line (telling V.numbers_of A.numbers_of) event outcome.now)) }
    ensures err { OnErr result ((n : ℕ)
        × Adds traced (F.seen files.old) (F.seen files.new)
        (take n (outcome_line (telling V.numbers_of A.numbers_of) event outcome.now))) }
    ensures fault { IsErrOf result Stop.TraceFault → IsTrue traced
        × Rose (F.seen files.old).write_faults (F.seen files.new).write_faults }
{
    trace(alloc, event, outcome, files, traced)?;
    Ok(is_commit(outcome))
}

// Appends the line of a step, where there is a trace.
fn trace<V: Datum, A: Datum, F: Files>(
    alloc: Global,
    event: Event,
    outcome: &Outcome<V, A>,
    files: &mut F,
    traced: bool,
) -> Result<(), Stop>
    requires goes { IsTrue (goes_with event outcome.now) }
    requires begun { IsTrue traced → IsTrue (F.seen files.old).is_begun }
    ensures ok { OnOk result (Adds traced (F.seen files.old) (F.seen files.new)
        (outcome_line (telling V.numbers_of A.numbers_of) event outcome.now)) }
    ensures err { OnErr result ((n : ℕ)
        × Adds traced (F.seen files.old) (F.seen files.new)
        (take n (outcome_line (telling V.numbers_of A.numbers_of) event outcome.now))) }
    ensures fault { IsErrOf result Stop.TraceFault → IsTrue traced
        × Rose (F.seen files.old).write_faults (F.seen files.new).write_faults }
{
    if !traced {
        return Ok(());
    }
    let mut line = empty_line(alloc)?;
    push_outcome(alloc, &mut line, event, outcome)?;
    append_whole(alloc, files, &line)?;
    Ok(())
}

// An empty line, with memory for the length that most lines have.
fn empty_line(alloc: Global) -> Result<Vec<u8>, OutOfMemory>
    ensures { IfOk result (λ line. line.items ≡ []) }
{
    let line = Vec::with_capacity(alloc, LINE_SIZE)?;
    Ok(line)
}

// Whether a step was a commit.
fn is_commit<V: Datum, A: Datum>(outcome: &Outcome<V, A>) -> bool
    ensures { result ≡ is_commit outcome.now }
{
    match outcome {
        Outcome::Committed(_, _, _) => true,
        _ => false,
    }
}
