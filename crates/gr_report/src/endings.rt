ghost use Rattle.std.specs.Prelude.{◌≡◌, ◌++◌, OnOk, OnErr};
ghost use Rattle.gr_report.specs.Endings.{lost_text, unfinished_text};

use crate::words::write_named;
use gr_base::{OutOfMemory, push_number};
use std::alloc::Global;

/// Appends the text of a run that lost vertices: `lost COUNT`, and then a line for each vertex in the order of the
/// list. In time linear in the text.
pub fn push_lost(alloc: Global, into: &mut Vec<u8>, list: &[u32]) -> Result<(), OutOfMemory>
    ensures ok { OnOk result (into.new.items ≡ into.old.items ++ lost_text list.now) }
    ensures err { OnErr result (into.new.items ≡ into.old.items) }
{
    let mut text = Vec::new(alloc);
    write_named(alloc, &mut text, b"lost", list.len() as u64)?;
    text.push(b'\n')?;
    for v in list {
        push_number(alloc, &mut text, u64::from(*v))?;
        text.push(b'\n')?;
    }
    into.extend_from_slice(text.as_slice())?;
    Ok(())
}

/// Appends the text of a run that ends early: `unfinished ROUNDS`, the number of committed rounds.
pub fn push_unfinished(alloc: Global, into: &mut Vec<u8>, round: u32) -> Result<(), OutOfMemory>
    ensures ok { OnOk result (into.new.items ≡ into.old.items ++ unfinished_text round) }
    ensures err { OnErr result (into.new.items ≡ into.old.items) }
{
    let mut text = Vec::new(alloc);
    write_named(alloc, &mut text, b"unfinished", u64::from(round))?;
    text.push(b'\n')?;
    into.extend_from_slice(text.as_slice())?;
    Ok(())
}
