ghost use Rattle.std.specs.Prelude.{◌≡◌, ◌+◌, ◌^◌, ◌≤◌, ◌<◌, [], length, OnOk, OnErr, IsErrOf, IsTrue};
ghost use Rattle.std.specs.Io.{StartsWith};
ghost use Rattle.gr_outside.specs.Counting.{Counts};

use crate::LoadFault;

/// A load of more bytes is a long one.
pub(crate) const LONGEST: usize = 268435456;

/// A count, one higher where something happened.
pub(crate) fn count_if(count: u64, happened: bool) -> u64
    ensures { Counts (IsTrue happened) count result }
{
    if happened {
        count.saturating_add(1)
    } else {
        count
    }
}

/// Copies bytes, and no more than one past the limit.
pub(crate) fn take_up_to(bytes: &[u8], limit: usize, into: &mut Vec<u8>) -> Result<(), LoadFault>
    requires empty { into.old.items ≡ [] }
    requires limit { limit + 1 < 2 ^ 64 }
    ensures whole { OnOk result ((length into.new.items ≤ limit) × (into.new.items ≡ bytes.now)) }
    ensures part { StartsWith bytes.now into.new.items }
    ensures within { length into.new.items ≤ limit + 1 }
    ensures too_long { IsErrOf result LoadFault.TooLong → length into.new.items ≡ limit + 1 }
    ensures failed { IsErrOf result LoadFault.Failed → ⊥ }
{
    let count = bytes.len().min(limit + 1);
    into.extend_from_slice(&bytes[..count])?;
    if count > limit {
        return Err(LoadFault::TooLong);
    }
    Ok(())
}
