ghost use Rattle.std.specs.Prelude.{◌≡◌, ◌++◌, ◌≤◌, length, take, codes, decimal, flat_map, OnOk, OnErr};
ghost use Rattle.gr_program.specs.Result.{done_text, value_line};

use gr_base::{OutOfMemory, push_number};
use gr_program::{Datum, ValueOf};
use std::alloc::Global;

/// Appends the text of a finished run: `done LAST COUNT`, and then a line `V TEXT` for each vertex in the order of the
/// list. In time linear in the text.
pub fn push_results<V: Datum>(
    alloc: Global,
    into: &mut Vec<u8>,
    last: u32,
    values: &[ValueOf<V>],
) -> Result<(), OutOfMemory>
    ensures ok { OnOk result (into.new.items ≡ into.old.items ++ done_text V.text_of last values.now) }
    ensures err { OnErr result (into.new.items ≡ into.old.items) }
{
    let before = into.len();
    match push_done(alloc, into, last, values) {
        Ok(()) => Ok(()),
        Err(fault) => {
            into.truncate(before);
            Err(fault)
        }
    }
}

fn push_done<V: Datum>(
    alloc: Global,
    into: &mut Vec<u8>,
    last: u32,
    values: &[ValueOf<V>],
) -> Result<(), OutOfMemory>
    ensures ok { OnOk result (into.new.items ≡ into.old.items ++ done_text V.text_of last values.now) }
    ensures err { OnErr result (take (length into.old.items) into.new.items ≡ into.old.items) }
{
    push_heading(alloc, into, last, values.len() as u64)?;
    for x in values {
        push_value(alloc, into, x)?;
    }
    Ok(())
}

fn push_heading(alloc: Global, into: &mut Vec<u8>, last: u32, count: u64) -> Result<(), OutOfMemory>
    ensures ok { OnOk result (into.new.items ≡ into.old.items
        ++ (codes "done " ++ decimal last ++ codes " " ++ decimal count ++ codes "\n")) }
    ensures err { OnErr result (take (length into.old.items) into.new.items ≡ into.old.items) }
{
    into.extend_from_slice(b"done ")?;
    push_number(alloc, into, u64::from(last))?;
    into.push(b' ')?;
    push_number(alloc, into, count)?;
    into.push(b'\n')?;
    Ok(())
}

// A line of a vertex and its value.
fn push_value<V: Datum>(
    alloc: Global,
    into: &mut Vec<u8>,
    x: &ValueOf<V>,
) -> Result<(), OutOfMemory>
    ensures ok { OnOk result (into.new.items ≡ into.old.items ++ value_line V.text_of x.now) }
    ensures err { OnErr result (take (length into.old.items) into.new.items ≡ into.old.items) }
{
    push_number(alloc, into, u64::from(x.vertex))?;
    into.push(b' ')?;
    x.value.push_text(alloc, into)?;
    into.push(b'\n')?;
    Ok(())
}
