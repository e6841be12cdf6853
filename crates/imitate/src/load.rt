ghost use Rattle.std.specs.Prelude.{◌≡◌, ◌<◌, ◌≤◌, ◌⊎◌, Some, length, IfOk, IfErr, IfSome, OnOk};
ghost use Rattle.gr_outside.specs.Files.{longest, bytes_of};
ghost use Rattle.imitate.specs.Commands.{named};
ghost use Rattle.imitate.specs.Loading.{LoadsInput};

use crate::command::Names;
use crate::refusal::{Input, Refusal, input_name};
use gr_outside::{Files, LoadFault};
use std::alloc::Global;

// No file may have more bytes.
const LONGEST: usize = 268435456;

/// The bytes of an input.
pub fn load<F: Files>(
    alloc: Global,
    files: &mut F,
    names: Names,
    input: Input,
) -> Result<Vec<u8>, Refusal>
    ensures { LoadsInput (λ v. v.items) (F.seen files.old) (F.seen files.new) (named names.entry) input result }
{
    let mut bytes = Vec::new(alloc);
    match files.load(alloc, input_name(names, input), LONGEST, &mut bytes) {
        Ok(()) => Ok(bytes),
        Err(LoadFault::Failed) => Err(Refusal::Unreadable(input)),
        Err(LoadFault::TooLong) => Err(Refusal::TooLong(input)),
        Err(LoadFault::OutOfMemory) => Err(Refusal::OutOfMemory),
    }
}
