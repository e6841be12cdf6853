ghost use Rattle.std.specs.Prelude.{◌≡◌, ◌≢◌, ◌<◌, ◌≤◌, ◌+◌, ◌*◌, ◌^◌, [], None, Some, length, is_ok, IsTrue, IsSome};
ghost use Rattle.std.specs.Prelude.{IsNone, IfSome, IsSomeAnd, OnOk, OnErr, IsErrOf};
ghost use Rattle.std.specs.List.{All};
ghost use Rattle.std.specs.Option.{option_copied};
ghost use Rattle.gr_outside.specs.Causes.{Rose};
ghost use Rattle.gr_outside.specs.Files.{LetsGo};
ghost use Rattle.gr_batch.specs.Telling.{telling};
ghost use Rattle.gr_sched.specs.Reading.{places_of, are_below};
ghost use Rattle.gr_cluster.specs.Runs.{IsWhole, position_after};
ghost use Rattle.gr_cluster.specs.Ending.{ending_of};
ghost use Rattle.gr_cluster.specs.ToGo.{most_added, to_go};
ghost use Rattle.gr_agree.specs.Agree.{Invariant};
ghost use Rattle.gr_play.specs.Playing.{start, event_lines, Plays, told_by};
ghost use Rattle.gr_play.specs.Tracing.{Traces, TracesPart};
ghost use Rattle.gr_play.specs.TracedSteps.{text_of_steps, CountsNoLoad};

use crate::ending::Ending;
use crate::lines::play_lines;
use crate::stop::Stop;
use gr_core::Cluster;
use gr_outside::Files;
use gr_program::VertexProgram;
use gr_sched::Line;
use gr_view::Mode;
use std::alloc::Global;

/// Plays a schedule on a cluster, to its end, and counts the steps. With a name the trace is written to that file: it
/// is begun, and the line of each step is appended as soon as the step is taken.
///
/// `settle` plays canonical events through the next commit, and `finish` until the run is over. After `TraceFault` and
/// `NoMemory` the cluster is the one after the counted steps; the list of lost vertices takes memory too.
///
/// One `settle` or `finish` plays at most `to_go` events, and a line that names an event adds at most as many as four
/// epochs have.
pub fn play<P: VertexProgram, F: Files>(
    alloc: Global,
    cluster: &mut Cluster<P>,
    schedule: &[Line],
    files: &mut F,
    trace: Option<&str>,
    steps: &mut u64,
) -> Ending
    requires none_yet { steps.old ≡ 0 }
    requires lines { length schedule.now ≤ 200000 }
    requires places { All (λ l. IsTrue (are_below cluster.old.cluster.places (places_of l))) schedule.now }
    requires flight { length cluster.old.cluster.flight ≤ 200000 }
    requires serial { cluster.old.cluster.serial < 2 ^ 62 }
    requires epoch { cluster.old.cluster.coordinator.epoch < 2 ^ 62 }
    requires commits { cluster.old.cluster.coordinator.commits < 2 ^ 62 }
    ensures steps { Plays (P.program_of cluster.old.program)
        (start cluster.old.cluster schedule.now) steps.new cluster.new.cluster }
    ensures program { cluster.new.program ≡ cluster.old.program }
    ensures few { steps.new ≤ to_go cluster.old.cluster + most_added * event_lines schedule.now }

    // How it ends.
    ensures ending { IfSome (told_by result) (λ e. e ≡ ending_of cluster.new.cluster) }
    ensures whole { IsSome (told_by result)
        → IsWhole (position_after (P.program_of cluster.old.program) steps.new
        (start cluster.old.cluster schedule.now)) }
    ensures fault { result ≡ Ending.TraceFault → IsSome trace.entry
        × Rose (F.seen files.old).write_faults (F.seen files.new).write_faults }

    // What it leaves in the files.
    ensures traced { IsSome (told_by result)
        → IfSome (option_copied trace.entry) (λ name. Traces (F.seen files.old) (F.seen files.new) name
        (text_of_steps (P.program_of cluster.old.program) (telling P.Value.numbers_of P.Acc.numbers_of)
        (start cluster.old.cluster schedule.now) steps.new)) }
    ensures part { told_by result ≡ None
        → IfSome (option_copied trace.entry) (λ name. TracesPart (F.seen files.old) (F.seen files.new) name
        (text_of_steps (P.program_of cluster.old.program) (telling P.Value.numbers_of P.Acc.numbers_of)
        (start cluster.old.cluster schedule.now) steps.new)) }
    ensures untraced { IsNone trace.entry → F.seen files.new ≡ F.seen files.old }
    ensures loads { CountsNoLoad (F.seen files.old) (F.seen files.new) }
{
    // A look at the limit tells that it has 32 bits, and that the cluster agrees with a committed state.
    let _limit = limit_of(cluster);
    if let Err(stop) = begin_trace(alloc, files, trace) {
        return stopped(stop);
    }
    match play_lines(alloc, cluster, schedule, files, trace.is_some(), steps) {
        Ok(()) => ending(cluster),
        Err(stop) => stopped(stop),
    }
}

// The limit of rounds.
fn limit_of<P: VertexProgram>(cluster: &Cluster<P>) -> u32
    ensures limit { result ≡ cluster.now.cluster.coordinator.limit }
    ensures agrees { Invariant (P.program_of cluster.now.program) cluster.now.cluster }
{
    let _mode = cluster.mode();
    cluster.coordinator().limit
}

// Begins the file of the trace, where there is one.
fn begin_trace<F: Files>(alloc: Global, files: &mut F, trace: Option<&str>) -> Result<(), Stop>
    ensures ok { OnOk result (IfSome (option_copied trace.entry)
        (λ name. Traces (F.seen files.old) (F.seen files.new) name [])) }
    ensures err { OnErr result (IsSome trace.entry
        × IfSome (option_copied trace.entry) (λ name. IfSome (F.seen files.old).told
        (λ t. IsSomeAnd (F.seen files.new).told (LetsGo t name)))) }
    ensures begun { IsSome trace.entry → (F.seen files.new).is_begun ≡ is_ok result }
    ensures untraced { IsNone trace.entry → F.seen files.new ≡ F.seen files.old }
    ensures loads { CountsNoLoad (F.seen files.old) (F.seen files.new) }
    ensures later { (F.seen files.old).write_faults ≤ (F.seen files.new).write_faults }
    ensures fault { IsErrOf result Stop.TraceFault
        → Rose (F.seen files.old).write_faults (F.seen files.new).write_faults }
{
    match trace {
        Some(name) => {
            files.begin(alloc, name)?;
            Ok(())
        }
        None => Ok(()),
    }
}

// How the run of a cluster has ended.
fn ending<P: VertexProgram>(cluster: &Cluster<P>) -> Ending
    ensures told { IfSome (told_by result) (λ e. e ≡ ending_of cluster.now.cluster) }
    ensures no_fault { result ≢ Ending.TraceFault }
{
    match cluster.mode() {
        Mode::Done => Ending::Done,
        Mode::Lost => match cluster.lost_list() {
            Ok(vertices) => Ending::Lost(vertices),
            Err(_) => Ending::NoMemory,
        },
        _ => Ending::Unfinished(cluster.rounds()),
    }
}

// The ending of a run that is not played on.
fn stopped(stop: Stop) -> Ending
    ensures none { told_by result ≡ None }
    ensures fault { result ≡ Ending.TraceFault → stop ≡ Stop.TraceFault }
{
    match stop {
        Stop::TraceFault => Ending::TraceFault,
        Stop::NoMemory => Ending::NoMemory,
    }
}
