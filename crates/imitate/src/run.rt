ghost use Rattle.imitate.specs.Words.{Asked};
ghost use Rattle.imitate.specs.Commands.{named};
ghost use Rattle.imitate.specs.Outcome.{Answers};

use crate::command::Names;
use crate::ended::Ended;
use crate::inputs::load_inputs;
use crate::played::play_plan;
use crate::reading::read_plan;
use crate::refusal::Refusal;
use gr_outside::{Files, Sink, SinkFault, write_whole};
use std::alloc::Global;

/// Loads the graph, the job and the schedule, plays the schedule with its trace, and writes what the run comes to.
pub fn run<F: Files, O: Sink>(
    alloc: Global,
    names: Names,
    files: &mut F,
    out: &mut O,
) -> Result<Ended, Refusal>
    ensures { Answers (F.seen files.old) (F.seen files.new) (O.seen out.old) (O.seen out.new)
        (Asked.Run (named names.entry)) result }
{
    let inputs = match load_inputs(alloc, files, names) {
        Ok(inputs) => inputs,
        Err(why) => return Err(why),
    };
    let accepted = match read_plan(alloc, &inputs.graph, &inputs.job, &inputs.schedule) {
        Ok(accepted) => accepted,
        Err(why) => return Err(why),
    };
    drop(inputs);
    let told = match play_plan(alloc, accepted, files, names.trace) {
        Ok(told) => told,
        Err(why) => return Err(why),
    };
    match write_whole(alloc, out, &told.text) {
        Ok(()) => Ok(told.ended),
        Err(SinkFault::Failed) => Err(Refusal::Output),
        Err(SinkFault::OutOfMemory) => Err(Refusal::OutOfMemory),
    }
}
