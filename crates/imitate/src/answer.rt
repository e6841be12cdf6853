ghost use Rattle.imitate.specs.Commands.{asked_by, IsInRange};
ghost use Rattle.imitate.specs.Outcome.{Answers};

use crate::command::Command;
use crate::ended::Ended;
use crate::plain::plain;
use crate::refusal::Refusal;
use crate::run::run;
use crate::workload::workload;
use gr_outside::{Files, Sink};
use std::alloc::Global;

/// Does what a command asks for.
pub fn answer<F: Files, O: Sink>(
    alloc: Global,
    command: Command,
    files: &mut F,
    out: &mut O,
) -> Result<Ended, Refusal>
    requires { IsInRange command }
    ensures { Answers (F.seen files.old) (F.seen files.new) (O.seen out.old) (O.seen out.new)
        (asked_by command.entry) result }
{
    match command {
        Command::Plain(names) => plain(alloc, names, files, out),
        Command::Run(names) => run(alloc, names, files, out),
        Command::Load(seed, size) => workload(alloc, seed, size, files, out),
    }
}
