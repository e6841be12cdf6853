ghost use Rattle.std.specs.Prelude.{◌≡◌, length};
ghost use Rattle.imitate.specs.Words.{Asked};
ghost use Rattle.imitate.specs.Commands.{named};
ghost use Rattle.imitate.specs.Outcome.{Answers};

use crate::command::Names;
use crate::ended::Ended;
use crate::load::load;
use crate::refusal::{Input, Refusal};
use crate::reply::reply;
use gr_outside::{Files, Sink, SinkFault, write_whole};
use std::alloc::Global;

/// Loads the graph and the job, and writes the result text.
pub fn plain<F: Files, O: Sink>(
    alloc: Global,
    names: Names,
    files: &mut F,
    out: &mut O,
) -> Result<Ended, Refusal>
    ensures { Answers (F.seen files.old) (F.seen files.new) (O.seen out.old) (O.seen out.new)
        (Asked.Plain (named names.entry)) result }
{
    let graph = match load(alloc, files, names, Input::Graph) {
        Ok(graph) => graph,
        Err(why) => return Err(why),
    };
    let job = match load(alloc, files, names, Input::Job) {
        Ok(job) => job,
        Err(why) => return Err(why),
    };
    let text = match reply(alloc, graph, &job) {
        Ok(text) => text,
        Err(why) => return Err(why),
    };
    match write_whole(alloc, out, &text) {
        Ok(()) => Ok(Ended::Done),
        Err(SinkFault::Failed) => Err(Refusal::Output),
        Err(SinkFault::OutOfMemory) => Err(Refusal::OutOfMemory),
    }
}
