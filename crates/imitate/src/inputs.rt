ghost use Rattle.std.specs.Prelude.{◌≡◌, ◌≤◌, Some, length, IfOk, IfErr, OnOk, IfSome};
ghost use Rattle.imitate.specs.Commands.{named};
ghost use Rattle.imitate.specs.Contents.{KeepsFiles};
ghost use Rattle.imitate.specs.Loading.{IsQuiet};
ghost use Rattle.imitate.specs.LoadCauses.{IsLoadCause};
ghost use Rattle.imitate.specs.Outcome.{plan_to};
ghost use Rattle.imitate.specs.Reading.{plan_of};

use crate::command::Names;
use crate::load::load;
use crate::refusal::{Input, Refusal};
use gr_outside::Files;
use std::alloc::Global;

/// The bytes of the inputs of a run.
#[derive(Drop)]
pub struct Inputs {
    pub graph: Vec<u8>,
    pub job: Vec<u8>,
    pub schedule: Vec<u8>,
}

/// Loads the graph, the job and the schedule.
pub fn load_inputs<F: Files>(alloc: Global, files: &mut F, names: Names) -> Result<Inputs, Refusal>
    ensures small_graph { IfOk result (λ i. length i.graph.items ≤ 268435456) }
    ensures small_schedule { IfOk result (λ i. length i.schedule.items ≤ 268435456) }
    ensures told { IfOk result (λ i. IfSome (F.seen files.old).told (λ t. plan_to t (named names.entry)
        ≡ Some (plan_of i.graph.items i.job.items i.schedule.items))) }
    ensures quiet { OnOk result (IsQuiet (F.seen files.old) (F.seen files.new)) }
    ensures cause { IfErr result (IsLoadCause (F.seen files.old) (F.seen files.new) (named names.entry)) }
    ensures kept { KeepsFiles (F.seen files.old) (F.seen files.new) }
{
    let graph = match load(alloc, files, names, Input::Graph) {
        Ok(graph) => graph,
        Err(why) => return Err(why),
    };
    let job = match load(alloc, files, names, Input::Job) {
        Ok(job) => job,
        Err(why) => return Err(why),
    };
    let schedule = match load(alloc, files, names, Input::Schedule) {
        Ok(schedule) => schedule,
        Err(why) => return Err(why),
    };
    Ok(Inputs {
        graph,
        job,
        schedule,
    })
}
