ghost use Rattle.std.specs.Prelude.{ℕ, ◌≡◌, ◌+◌, ◌*◌, ◌≤◌, [], ◌∷◌, List, length, IsTrue, OnOk, OnErr, IsErrOf};
ghost use Rattle.std.specs.List.{All};
ghost use Rattle.gr_outside.specs.Causes.{Rose};
ghost use Rattle.gr_batch.specs.Telling.{telling};
ghost use Rattle.gr_sched.specs.declared.event.Line as kinds;
ghost use Rattle.gr_sched.specs.Reading.{places_of, are_below};
ghost use Rattle.gr_cluster.specs.ToGo.{most_added, to_go};
ghost use Rattle.gr_agree.specs.Agree.{Invariant};
ghost use Rattle.gr_play.specs.Playing.{start, event_lines};
ghost use Rattle.gr_play.specs.Inside.Progress.{canonical_line, PlaysTo, PlaysPart};
ghost use Rattle.gr_play.specs.Inside.Room.{HasRoomFor};

use crate::canonical::next_canonical;
use crate::event::play_event;
use crate::stop::Stop;
use gr_core::Cluster;
use gr_outside::Files;
use gr_program::VertexProgram;
use gr_sched::Line;
use std::alloc::Global;

/// Plays the lines of a schedule, one after the other.
pub(crate) fn play_lines<P: VertexProgram, F: Files>(
    alloc: Global,
    cluster: &mut Cluster<P>,
    schedule: &[Line],
    files: &mut F,
    traced: bool,
    steps: &mut u64,
) -> Result<(), Stop>
    requires agrees { Invariant (P.program_of cluster.old.program) cluster.old.cluster }
    requires places { All (λ l. IsTrue (are_below cluster.old.cluster.places (places_of l))) schedule.now }
    requires room { HasRoomFor cluster.old.cluster steps.old (length schedule.now) }
    requires begun { IsTrue traced → IsTrue (F.seen files.old).is_begun }
    ensures ok { OnOk result (PlaysTo (P.program_of cluster.old.program)
        (telling P.Value.numbers_of P.Acc.numbers_of) traced steps.old steps.new (F.seen files.old) (F.seen files.new)
        (start cluster.old.cluster schedule.now) (start cluster.new.cluster [])) }
    ensures err { OnErr result (PlaysPart (P.program_of cluster.old.program)
        (telling P.Value.numbers_of P.Acc.numbers_of) traced steps.old steps.new (F.seen files.old) (F.seen files.new)
        (start cluster.old.cluster schedule.now) cluster.new.cluster) }
    ensures few { steps.new + to_go cluster.new.cluster
        ≤ steps.old + to_go cluster.old.cluster + most_added * event_lines schedule.now }
    ensures agrees { Invariant (P.program_of cluster.old.program) cluster.new.cluster }
    ensures program { cluster.new.program ≡ cluster.old.program }
    ensures fault { IsErrOf result Stop.TraceFault → IsTrue traced
        × Rose (F.seen files.old).write_faults (F.seen files.new).write_faults }
{
    'lines: for line in schedule {
        match play_line(alloc, cluster, *line, files, traced, steps) {
            Ok(()) => {}
            Err(stop) => return Err(stop),
        }
    }
    Ok(())
}

// Plays one line of a schedule.
fn play_line<P: VertexProgram, F: Files>(
    alloc: Global,
    cluster: &mut Cluster<P>,
    line: Line,
    files: &mut F,
    traced: bool,
    steps: &mut u64,
) -> Result<(), Stop>
    requires agrees { Invariant (P.program_of cluster.old.program) cluster.old.cluster }
    requires places { IsTrue (are_below cluster.old.cluster.places (places_of line)) }
    requires room { HasRoomFor cluster.old.cluster steps.old 1 }
    requires begun { IsTrue traced → IsTrue (F.seen files.old).is_begun }
    ensures ok { OnOk result ((rest : List kinds.Line)
        → PlaysTo (P.program_of cluster.old.program)
        (telling P.Value.numbers_of P.Acc.numbers_of) traced steps.old steps.new (F.seen files.old) (F.seen files.new)
        (start cluster.old.cluster (line ∷ rest)) (start cluster.new.cluster rest)) }
    ensures err { OnErr result ((rest : List kinds.Line)
        → PlaysPart (P.program_of cluster.old.program)
        (telling P.Value.numbers_of P.Acc.numbers_of) traced steps.old steps.new (F.seen files.old) (F.seen files.new)
        (start cluster.old.cluster (line ∷ rest)) cluster.new.cluster) }
    ensures room { OnOk result ((n : ℕ) → HasRoomFor cluster.old.cluster steps.old (n + 1)
        → HasRoomFor cluster.new.cluster steps.new n) }
    ensures few { steps.new + to_go cluster.new.cluster
        ≤ steps.old + to_go cluster.old.cluster + most_added * event_lines (line ∷ []) }
    ensures agrees { Invariant (P.program_of cluster.old.program) cluster.new.cluster }
    ensures program { cluster.new.program ≡ cluster.old.program }
    ensures places { cluster.new.cluster.places ≡ cluster.old.cluster.places }
    ensures fault { IsErrOf result Stop.TraceFault → IsTrue traced
        × Rose (F.seen files.old).write_faults (F.seen files.new).write_faults }
{
    match line {
        Line::Step(event) => match play_event(alloc, cluster, event, files, traced, steps) {
            Ok(_) => Ok(()),
            Err(stop) => Err(stop),
        },
        Line::Settle => play_canonical(alloc, cluster, true, files, traced, steps),
        Line::Finish => play_canonical(alloc, cluster, false, files, traced, steps),
    }
}

// Plays canonical events, through the next commit or until the run is over.
fn play_canonical<P: VertexProgram, F: Files>(
    alloc: Global,
    cluster: &mut Cluster<P>,
    through_commit: bool,
    files: &mut F,
    traced: bool,
    steps: &mut u64,
) -> Result<(), Stop>
    requires agrees { Invariant (P.program_of cluster.old.program) cluster.old.cluster }
    requires room { HasRoomFor cluster.old.cluster steps.old 0 }
    requires begun { IsTrue traced → IsTrue (F.seen files.old).is_begun }
    ensures ok { OnOk result ((rest : List kinds.Line)
        → PlaysTo (P.program_of cluster.old.program)
        (telling P.Value.numbers_of P.Acc.numbers_of) traced steps.old steps.new (F.seen files.old) (F.seen files.new)
        (start cluster.old.cluster (canonical_line through_commit ∷ rest)) (start cluster.new.cluster rest)) }
    ensures err { OnErr result ((rest : List kinds.Line)
        → PlaysPart (P.program_of cluster.old.program)
        (telling P.Value.numbers_of P.Acc.numbers_of) traced steps.old steps.new (F.seen files.old) (F.seen files.new)
        (start cluster.old.cluster (canonical_line through_commit ∷ rest)) cluster.new.cluster) }
    ensures room { (n : ℕ) → HasRoomFor cluster.old.cluster steps.old n → HasRoomFor cluster.new.cluster steps.new n }
    ensures few { steps.new + to_go cluster.new.cluster ≤ steps.old + to_go cluster.old.cluster }
    ensures agrees { Invariant (P.program_of cluster.old.program) cluster.new.cluster }
    ensures program { cluster.new.program ≡ cluster.old.program }
    ensures places { cluster.new.cluster.places ≡ cluster.old.cluster.places }
    ensures fault { IsErrOf result Stop.TraceFault → IsTrue traced
        × Rose (F.seen files.old).write_faults (F.seen files.new).write_faults }
{
    'canonical: while let Some(event) = next_canonical(cluster) {
        match play_event(alloc, cluster, event, files, traced, steps) {
            Ok(commits) => {
                if commits & through_commit {
                    return Ok(());
                }
            }
            Err(stop) => return Err(stop),
        }
    }
    Ok(())
}
