ghost use Rattle.std.specs.Prelude.{◌≡◌, ◌≢◌, ◌⊎◌, map};
ghost use Rattle.gr_outside.specs.Causes.{Rose};
ghost use Rattle.gr_outside.specs.Sink.{Gains};
ghost use Rattle.imitate.specs.Commands.{named};
ghost use Rattle.imitate.specs.Refusals.{line_of, status_of};
ghost use Rattle.imitate.specs.Contents.{GainsPart};
ghost use Rattle.imitate.specs.Behaviour.{IsAnswered, IsCaused, LeavesBehind};

use crate::answer::answer;
use crate::command::{Names, read_command};
use crate::refusal::{Refusal, line, status};
use gr_outside::{Files, Sink, SinkFault, write_whole};
use std::alloc::Global;

/// The program over the words after its name, with its files, its output and its messages. The answer is the status
/// that it ends with:
///
/// - 0: the run is done, and the result text is on the output.
/// - 1: memory ran out.
/// - 2: the words are of no form.
/// - 3 and 4: an input cannot be read, or has more than 268435456 bytes.
/// - 5, 6 and 7: the graph, the job or the schedule is refused; the job is read first, and the schedule last.
/// - 8: the run lost vertices, and their list is on the output.
/// - 9: the schedule ended early, and the number of committed rounds is on the output.
/// - 10: the trace failed.
/// - 11: the output failed.
///
/// For each but 0, 8 and 9 one line on the messages says why.
pub fn imitate<F: Files, O: Sink, E: Sink>(
    alloc: Global,
    words: &[&str],
    files: &mut F,
    out: &mut O,
    err: &mut E,
) -> u8
    ensures answered { IsAnswered (F.seen files.old) (F.seen files.new) (O.seen out.old) (O.seen out.new)
        (E.seen err.old) (E.seen err.new) (map (λ w. w.now) words.now) result }
    ensures caused { IsCaused (F.seen files.old) (F.seen files.new) (O.seen out.old) (O.seen out.new) (E.seen err.old)
        (E.seen err.new) (map (λ w. w.now) words.now) result }
    ensures left { LeavesBehind (F.seen files.old) (F.seen files.new) (O.seen out.old) (O.seen out.new) (E.seen err.old)
        (E.seen err.new) (map (λ w. w.now) words.now) result }
{
    let Some(command) = read_command(words) else {
        return say(alloc, &Refusal::Usage, Names::none(), err);
    };
    match answer(alloc, command, files, out) {
        Ok(ended) => ended.status(),
        Err(refusal) => say(alloc, &refusal, command.names(), err),
    }
}

// Writes the line of a refusal, and gives its status.
fn say<E: Sink>(alloc: Global, refusal: &Refusal, names: Names, err: &mut E) -> u8
    ensures status { (result ≡ status_of refusal.now) ⊎ (result ≡ 1) }
    ensures part { GainsPart (E.seen err.old) (E.seen err.new) (line_of (named names.entry) refusal.now) }
    ensures whole { result ≢ 1 → Gains (E.seen err.old) (E.seen err.new) (line_of (named names.entry) refusal.now)
        ⊎ Rose (E.seen err.old).faults (E.seen err.new).faults }
{
    let Ok(text) = line(alloc, refusal, names) else {
        return 1;
    };
    match write_whole(alloc, err, &text) {
        Ok(()) | Err(SinkFault::Failed) => status(refusal),
        Err(SinkFault::OutOfMemory) => 1,
    }
}
