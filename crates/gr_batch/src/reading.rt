ghost use Rattle.std.specs.Prelude.{◌≡◌, ◌≢◌, ℕ, ◌<◌, ◌^◌, [], ◌∷◌, ◌++◌, List, length, flat_map, IfOk, IfSome, IfNone};
ghost use Rattle.gr_batch.specs.declared.body.Body.{Body as TheBody};
ghost use Rattle.gr_batch.specs.declared.batch.Batch.{Batch as TheBatch};
ghost use Rattle.gr_batch.specs.Telling.{telling};
ghost use Rattle.gr_batch.specs.Reading.{IsFront, HasNoFront, IsHead, TellBody, head_told};
ghost use Rattle.gr_batch.specs.Spelling.{AreItems, IsSpelled, batch_numbers, batch_bytes};

use crate::field::{number_at, place_at, short_at};
use crate::item::Item;
use crate::number::numbers_in;
use crate::{Batch, Body};
use gr_base::{Items, OutOfMemory};
use gr_program::Datum;
use std::alloc::Global;

/// The batch that bytes spell, or `None` where they are the spelling of none, in time linear in the bytes.
///
/// The spelling is that of `encode`. A number that is spelled longer than it may be or is out of its range, a sender
/// that is also the receiver, vertices that do not rise, a master that is not among its holders, numbers that tell no
/// value, and bytes that go on after the last item spell no batch.
///
/// # Errors
///
/// `OutOfMemory` where memory runs out.
pub fn decode<V: Datum, A: Datum>(
    alloc: Global,
    bytes: &[u8],
) -> Result<Option<Batch<V, A>>, OutOfMemory>
    ensures ranges { IfOk result (λ r. IfSome r (λ batch. IsSpelled (telling V.numbers_of A.numbers_of) batch)) }
    ensures found { IfOk result (λ r. IfSome r (λ batch.
        bytes.now ≡ batch_bytes (telling V.numbers_of A.numbers_of) batch)) }
    ensures absent { IfOk result (λ r. IfNone r ((batch : TheBatch V A)
        → IsSpelled (telling V.numbers_of A.numbers_of) batch
        → bytes.now ≢ batch_bytes (telling V.numbers_of A.numbers_of) batch)) }
{
    match numbers_in(alloc, bytes)? {
        None => Ok(None),
        Some(numbers) => batch_in(alloc, &numbers),
    }
}

// What stands before the items of a batch.
#[derive(Clone, Copy)]
struct Head {
    serial: u64,
    epoch: u64,
    round: u32,
    code: u64,
    sender: u8,
    receiver: u8,
}

fn head_at(numbers: &[u64]) -> Option<(Head, &[u64])>
    ensures found { IfSome result (λ x. IsFront head_told IsHead numbers.now x.0 x.1.now) }
    ensures absent { IfNone result (HasNoFront head_told IsHead numbers.now) }
{
    let (serial, rest) = number_at(numbers)?;
    let (epoch, rest) = number_at(rest)?;
    let (round, rest) = short_at(rest)?;
    let (code, rest) = number_at(rest)?;
    let (sender, rest) = place_at(rest)?;
    let (receiver, rest) = place_at(rest)?;
    if sender == receiver {
        return None;
    }
    let head = Head {
        serial,
        epoch,
        round,
        code,
        sender,
        receiver,
    };
    Some((head, rest))
}

// The batch that all of the numbers tell.
fn batch_in<V: Datum, A: Datum>(
    alloc: Global,
    numbers: &[u64],
) -> Result<Option<Batch<V, A>>, OutOfMemory>
    ensures found { IfOk result (λ r. IfSome r (λ batch. IsSpelled (telling V.numbers_of A.numbers_of) batch
        × (numbers.now ≡ batch_numbers (telling V.numbers_of A.numbers_of) batch))) }
    ensures absent { IfOk result (λ r. IfNone r ((batch : TheBatch V A)
        → IsSpelled (telling V.numbers_of A.numbers_of) batch
        → numbers.now ≢ batch_numbers (telling V.numbers_of A.numbers_of) batch)) }
{
    match head_at(numbers) {
        None => Ok(None),
        Some(front) => match body_in(alloc, front.0.code, front.1)? {
            None => Ok(None),
            Some(body) => Ok(Some(Batch {
                serial: front.0.serial,
                epoch: front.0.epoch,
                round: front.0.round,
                sender: front.0.sender,
                receiver: front.0.receiver,
                body,
            })),
        },
    }
}

// The body of the stage of this code that all of the numbers tell.
fn body_in<V: Datum, A: Datum>(
    alloc: Global,
    code: u64,
    numbers: &[u64],
) -> Result<Option<Body<V, A>>, OutOfMemory>
    ensures found { IfOk result (λ r. IfSome r (λ body.
        TellBody (telling V.numbers_of A.numbers_of) code numbers.now body)) }
    ensures absent { IfOk result (λ r. IfNone r ((body : TheBody V A)
        → TellBody (telling V.numbers_of A.numbers_of) code numbers.now body → ⊥)) }
{
    match code {
        0 => match items_in(alloc, numbers)? {
            None => Ok(None),
            Some(items) => Ok(Some(Body::Gather(items))),
        },
        1 => match items_in(alloc, numbers)? {
            None => Ok(None),
            Some(items) => Ok(Some(Body::Update(items))),
        },
        2 => match items_in(alloc, numbers)? {
            None => Ok(None),
            Some(items) => Ok(Some(Body::Signal(items))),
        },
        3 => match items_in(alloc, numbers)? {
            None => Ok(None),
            Some(items) => Ok(Some(Body::Call(items))),
        },
        4 => match items_in(alloc, numbers)? {
            None => Ok(None),
            Some(items) => Ok(Some(Body::Ask(items))),
        },
        5 => match items_in(alloc, numbers)? {
            None => Ok(None),
            Some(items) => Ok(Some(Body::Grant(items))),
        },
        _ => Ok(None),
    }
}

// The items that all of the numbers tell, by rising vertices: how many there are, and each.
fn items_in<I: Item>(alloc: Global, numbers: &[u64]) -> Result<Option<Items<I>>, OutOfMemory>
    ensures found { IfOk result (λ r. IfSome r (λ items. AreItems I.key I.Fits items
        × (numbers.now ≡ length items ∷ flat_map I.told items))) }
    ensures absent { IfOk result (λ r. IfNone r ((items : List I) → AreItems I.key I.Fits items
        → numbers.now ≢ length items ∷ flat_map I.told items)) }
{
    match numbers {
        [] => Ok(None),
        [count, told @ ..] => items_told(alloc, *count, told),
    }
}

fn items_told<I: Item>(
    alloc: Global,
    count: u64,
    numbers: &[u64],
) -> Result<Option<Items<I>>, OutOfMemory>
    ensures found { IfOk result (λ r. IfSome r (λ items. AreItems I.key I.Fits items × (length items ≡ count)
        × (numbers.now ≡ flat_map I.told items))) }
    ensures absent { IfOk result (λ r. IfNone r ((items : List I) → AreItems I.key I.Fits items → length items ≡ count
        → numbers.now ≢ flat_map I.told items)) }
{
    let mut items = Items::new(alloc);
    let mut rest = numbers;
    // no vertex that comes may be below it
    let mut least = 0u64;
    for i in 0..count {
        match I::read(rest) {
            None => return Ok(None),
            Some(front) => {
                let vertex = front.0.vertex() as u64;
                if vertex < least {
                    return Ok(None);
                }
                items.push(front.0)?;
                least = vertex + 1;
                rest = front.1;
            }
        }
    }
    if !rest.is_empty() {
        return Ok(None);
    }
    Ok(Some(items))
}
