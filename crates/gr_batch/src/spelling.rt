ghost use Rattle.std.specs.Prelude.{◌≡◌, ◌++◌, OnOk, OnErr, IfOk};
ghost use Rattle.gr_batch.specs.Telling.{telling};
ghost use Rattle.gr_batch.specs.Spelling.{body_numbers, batch_numbers, batch_bytes};

use crate::item::push_items;
use crate::number::push_number;
use crate::{Batch, Body, stage_of};
use gr_base::OutOfMemory;
use gr_program::Datum;
use std::alloc::Global;

/// Appends the one spelling of a batch, in time linear in its items.
///
/// It is these numbers, each in unsigned LEB128 in its shortest form: the serial, the epoch, the round, the stage (0 to
/// 5 in their order), the sender, the receiver, the number of items and the items. An item of a Gather body is its
/// vertex and the numbers of the sum; of an Update body the vertex, the numbers of the value and whether it wakes (1 or
/// 0); of a Signal, Call or Ask body the vertex; of a Grant body the vertex, its in-degree and out-degree, the master,
/// the word whose bits are the holders, 1 and the numbers of the value or 0, and whether it is due.
///
/// # Errors
///
/// `OutOfMemory` where memory runs out.
pub fn encode<V: Datum, A: Datum>(
    alloc: Global,
    batch: &Batch<V, A>,
    into: &mut Vec<u8>,
) -> Result<(), OutOfMemory>
    ensures ok { OnOk result (into.new.items ≡ into.old.items
        ++ batch_bytes (telling V.numbers_of A.numbers_of) batch.now) }
    ensures err { OnErr result (into.new.items ≡ into.old.items) }
{
    let bytes = bytes_of(alloc, batch)?;
    into.extend_from_slice(&bytes)?;
    Ok(())
}

fn bytes_of<V: Datum, A: Datum>(alloc: Global, batch: &Batch<V, A>) -> Result<Vec<u8>, OutOfMemory>
    ensures { IfOk result (λ bytes. bytes.items ≡ batch_bytes (telling V.numbers_of A.numbers_of) batch.now) }
{
    let numbers = numbers_of(alloc, batch)?;
    let mut bytes = Vec::new(alloc);
    for number in &numbers {
        push_number(&mut bytes, *number)?;
    }
    Ok(bytes)
}

// The numbers that tell a batch.
fn numbers_of<V: Datum, A: Datum>(
    alloc: Global,
    batch: &Batch<V, A>,
) -> Result<Vec<u64>, OutOfMemory>
    ensures { IfOk result (λ numbers. numbers.items ≡ batch_numbers (telling V.numbers_of A.numbers_of) batch.now) }
{
    let mut numbers = Vec::new(alloc);
    numbers.extend_from_slice(&[
        batch.serial,
        batch.epoch,
        batch.round as u64,
        stage_of(batch) as u64,
        batch.sender as u64,
        batch.receiver as u64,
    ])?;
    push_body(&mut numbers, &batch.body)?;
    Ok(numbers)
}

fn push_body<V: Datum, A: Datum>(
    numbers: &mut Vec<u64>,
    body: &Body<V, A>,
) -> Result<(), OutOfMemory>
    ensures { OnOk result (numbers.new.items ≡ numbers.old.items
        ++ body_numbers (telling V.numbers_of A.numbers_of) body.now) }
{
    match body {
        Body::Gather(parts) => push_items(numbers, parts.as_slice()),
        Body::Update(values) => push_items(numbers, values.as_slice()),
        Body::Signal(vertices) => push_items(numbers, vertices.as_slice()),
        Body::Call(vertices) => push_items(numbers, vertices.as_slice()),
        Body::Ask(vertices) => push_items(numbers, vertices.as_slice()),
        Body::Grant(copies) => push_items(numbers, copies.as_slice()),
    }
}
