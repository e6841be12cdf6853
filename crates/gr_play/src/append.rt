ghost use Rattle.std.specs.Prelude.{ℕ, true, take, IsTrue, OnOk, OnErr, IsErrOf};
ghost use Rattle.gr_outside.specs.Causes.{Rose};
ghost use Rattle.gr_play.specs.Inside.Adding.{Adds};

use gr_outside::{FileFault, Files};
use std::alloc::Global;

/// Appends all the bytes to the file that is begun, by as many appends as it takes. After an error a first part of them
/// is appended.
pub(crate) fn append_whole<F: Files>(
    alloc: Global,
    files: &mut F,
    bytes: &[u8],
) -> Result<(), FileFault>
    requires { IsTrue (F.seen files.old).is_begun }
    ensures ok { OnOk result (Adds true (F.seen files.old) (F.seen files.new) bytes.now) }
    ensures err { OnErr result ((n : ℕ) × Adds true (F.seen files.old) (F.seen files.new) (take n bytes.now)) }
    ensures fault { IsErrOf result FileFault.Failed
        → Rose (F.seen files.old).write_faults (F.seen files.new).write_faults }
{
    let mut rest = bytes;
    while !rest.is_empty() {
        let count = files.append(alloc, rest)?;
        rest = &rest[count..];
    }
    Ok(())
}
