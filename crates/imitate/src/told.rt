ghost use Rattle.std.specs.Prelude.{◌≡◌, ◌⊎◌, IfOk, IfErr, IfSome};
ghost use Rattle.gr_program.specs.Result.{done_text};
ghost use Rattle.gr_report.specs.Endings.{lost_text, unfinished_text};
ghost use Rattle.gr_view.specs.declared.coordinator.Mode.TheVariants as mode;
ghost use Rattle.gr_cluster.specs.Ending.{ending_of, results_of};
ghost use Rattle.gr_play.specs.Playing.{told_by};
ghost use Rattle.imitate.specs.Playing.{IsTold};

use crate::ended::Ended;
use crate::refusal::Refusal;
use gr_base::OutOfMemory;
use gr_core::Cluster;
use gr_play::Ending;
use gr_program::VertexProgram;
use gr_report::{push_lost, push_results, push_unfinished};
use std::alloc::Global;

/// How a run ended, and what it prints.
#[derive(Drop)]
pub struct Told {
    pub ended: Ended,
    pub text: Vec<u8>,
}

/// How the run of a cluster ended, with its text, where the trace and memory sufficed for it.
pub fn tell<P: VertexProgram>(
    alloc: Global,
    cluster: &Cluster<P>,
    ending: &Ending,
) -> Result<Told, Refusal>
    requires { IfSome (told_by ending.now) (λ e. e ≡ ending_of cluster.now.cluster) }
    ensures ended { IfOk result (λ told. IsTold P.Value.text_of cluster.now.cluster
        (told_by ending.now) told.ended told.text.items) }
    ensures failed { IfErr result (λ why. (why ≡ Refusal.OutOfMemory)
        ⊎ ((why ≡ Refusal.Trace) × (ending.now ≡ Ending.TraceFault))) }
{
    match ending {
        Ending::Done => {
            let text = results(alloc, cluster)?;
            Ok(Told {
                ended: Ended::Done,
                text,
            })
        }
        Ending::Lost(list) => {
            let text = lost(alloc, list.as_slice())?;
            Ok(Told {
                ended: Ended::Lost,
                text,
            })
        }
        Ending::Unfinished(rounds) => {
            let text = unfinished(alloc, *rounds)?;
            Ok(Told {
                ended: Ended::Early,
                text,
            })
        }
        Ending::TraceFault => Err(Refusal::Trace),
        Ending::NoMemory => Err(Refusal::OutOfMemory),
    }
}

// The text of a run that is done.
fn results<P: VertexProgram>(alloc: Global, cluster: &Cluster<P>) -> Result<Vec<u8>, OutOfMemory>
    requires { cluster.now.cluster.coordinator.mode ≡ mode.Done }
    ensures { IfOk result (λ text. text.items
        ≡ done_text P.Value.text_of cluster.now.cluster.coordinator.round (results_of cluster.now.cluster)) }
{
    let values = cluster.results()?;
    let mut text = Vec::new(alloc);
    push_results(alloc, &mut text, cluster.rounds(), values.as_slice())?;
    Ok(text)
}

// The text of a run that lost these vertices.
fn lost(alloc: Global, list: &[u32]) -> Result<Vec<u8>, OutOfMemory>
    ensures { IfOk result (λ text. text.items ≡ lost_text list.now) }
{
    let mut text = Vec::new(alloc);
    push_lost(alloc, &mut text, list)?;
    Ok(text)
}

// The text of a run that ended early, after so many rounds.
fn unfinished(alloc: Global, rounds: u32) -> Result<Vec<u8>, OutOfMemory>
    ensures { IfOk result (λ text. text.items ≡ unfinished_text rounds) }
{
    let mut text = Vec::new(alloc);
    push_unfinished(alloc, &mut text, rounds)?;
    Ok(text)
}
