ghost use Rattle.std.specs.Prelude.{◌≡◌, ◌++◌, flat_map, codes, decimal, OnOk};
ghost use Rattle.gr_sched.specs.Words.{word};
ghost use Rattle.gr_sched.specs.EventText.{words};
ghost use Rattle.gr_batch.specs.Telling.{telling};
ghost use Rattle.gr_report.specs.Trace.{comma_text, mark_text, kept_text, part_text, new_text, copy_text, body_text};

use crate::words::{write_datum, write_holders, write_mark, write_text};
use gr_base::{OutOfMemory, push_number};
use gr_batch::{Body, NewValue, Part};
use gr_program::{Datum, VertexCopy};
use gr_sched::write_word;
use std::alloc::Global;

/// Appends the items of a body, a blank before each.
pub fn write_body<V: Datum, A: Datum>(
    alloc: Global,
    line: &mut Vec<u8>,
    body: &Body<V, A>,
) -> Result<(), OutOfMemory>
    ensures { OnOk result (line.new.items ≡ line.old.items ++ body_text (telling V.numbers_of A.numbers_of) body.now) }
{
    match body {
        Body::Gather(parts) => write_parts(alloc, line, parts.as_slice()),
        Body::Update(values) => write_values(alloc, line, values.as_slice()),
        Body::Signal(vertices) => write_vertices(alloc, line, vertices.as_slice()),
        Body::Call(vertices) => write_vertices(alloc, line, vertices.as_slice()),
        Body::Ask(vertices) => write_vertices(alloc, line, vertices.as_slice()),
        Body::Grant(copies) => write_copies(alloc, line, copies.as_slice()),
    }
}

fn write_parts<A: Datum>(
    alloc: Global,
    line: &mut Vec<u8>,
    parts: &[Part<A>],
) -> Result<(), OutOfMemory>
    ensures { OnOk result (line.new.items ≡ line.old.items ++ flat_map (part_text A.numbers_of) parts.now) }
{
    for part in parts {
        write_word(alloc, line, u64::from(part.vertex))?;
        line.push(b':')?;
        write_datum(alloc, line, &part.acc)?;
    }
    Ok(())
}

fn write_values<V: Datum>(
    alloc: Global,
    line: &mut Vec<u8>,
    values: &[NewValue<V>],
) -> Result<(), OutOfMemory>
    ensures { OnOk result (line.new.items ≡ line.old.items ++ flat_map (new_text V.numbers_of) values.now) }
{
    for new in values {
        write_word(alloc, line, u64::from(new.vertex))?;
        line.push(b':')?;
        write_datum(alloc, line, &new.value)?;
        line.push(b':')?;
        write_mark(line, new.wake)?;
    }
    Ok(())
}

fn write_vertices(alloc: Global, line: &mut Vec<u8>, vertices: &[u32]) -> Result<(), OutOfMemory>
    ensures { OnOk result (line.new.items ≡ line.old.items ++ words vertices.now) }
{
    for v in vertices {
        write_word(alloc, line, u64::from(*v))?;
    }
    Ok(())
}

fn write_copies<V: Datum>(
    alloc: Global,
    line: &mut Vec<u8>,
    copies: &[VertexCopy<V>],
) -> Result<(), OutOfMemory>
    ensures { OnOk result (line.new.items ≡ line.old.items ++ flat_map (copy_text V.numbers_of) copies.now) }
{
    for copy in copies {
        write_copy(alloc, line, copy)?;
    }
    Ok(())
}

fn write_copy<V: Datum>(
    alloc: Global,
    line: &mut Vec<u8>,
    copy: &VertexCopy<V>,
) -> Result<(), OutOfMemory>
    ensures { OnOk result (line.new.items ≡ line.old.items ++ copy_text V.numbers_of copy.now) }
{
    write_degrees(alloc, line, copy)?;
    write_state(alloc, line, copy)
}

fn write_degrees<V: Datum>(
    alloc: Global,
    line: &mut Vec<u8>,
    copy: &VertexCopy<V>,
) -> Result<(), OutOfMemory>
    ensures { OnOk result (line.new.items ≡ line.old.items
        ++ (word copy.now.vertex ++ codes ":" ++ decimal copy.now.indeg ++ codes ":" ++ decimal copy.now.outdeg)) }
{
    write_word(alloc, line, u64::from(copy.vertex))?;
    line.push(b':')?;
    push_number(alloc, line, u64::from(copy.indeg))?;
    line.push(b':')?;
    push_number(alloc, line, u64::from(copy.outdeg))?;
    Ok(())
}

fn write_state<V: Datum>(
    alloc: Global,
    line: &mut Vec<u8>,
    copy: &VertexCopy<V>,
) -> Result<(), OutOfMemory>
    ensures { OnOk result (line.new.items ≡ line.old.items
        ++ (codes ":" ++ decimal copy.now.master ++ codes ":" ++ comma_text copy.now.holders ++ codes ":"
        ++ kept_text V.numbers_of copy.now.value ++ codes ":" ++ mark_text copy.now.due)) }
{
    line.push(b':')?;
    push_number(alloc, line, u64::from(copy.master))?;
    line.push(b':')?;
    write_holders(alloc, line, copy.holders)?;
    line.push(b':')?;
    write_kept(alloc, line, &copy.value)?;
    line.push(b':')?;
    write_mark(line, copy.due)
}

fn write_kept<V: Datum>(
    alloc: Global,
    line: &mut Vec<u8>,
    value: &Option<V>,
) -> Result<(), OutOfMemory>
    ensures { OnOk result (line.new.items ≡ line.old.items ++ kept_text V.numbers_of value.now) }
{
    match value {
        None => write_text(line, b"-"),
        Some(value) => write_datum(alloc, line, value),
    }
}
