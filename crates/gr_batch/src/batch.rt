ghost use Rattle.std.specs.Prelude.{◌≡◌, IfOk};
ghost use Rattle.gr_batch.specs.Bodies.{stage_of_body};

use crate::{Body, Stage};
use gr_base::OutOfMemory;
use gr_program::Datum;
use std::alloc::Global;

/// What one place sends to another in one stage of an epoch. Serials rise from 0 in order of sending, and `round`
/// counts the rounds that were committed then.
#[derive(Debug, Drop)]
pub struct Batch<V: Datum, A: Datum> {
    pub serial: u64,
    pub epoch: u64,
    pub round: u32,
    pub sender: u8,
    pub receiver: u8,
    pub body: Body<V, A>,
}

/// The stage in which a batch is sent, which its body tells. It is never `End`.
pub fn stage_of<V: Datum, A: Datum>(batch: &Batch<V, A>) -> Stage
    ensures { result ≡ stage_of_body batch.now.body }
{
    match &batch.body {
        Body::Gather(_) => Stage::Gather,
        Body::Update(_) => Stage::Update,
        Body::Signal(_) => Stage::Signal,
        Body::Call(_) => Stage::Call,
        Body::Ask(_) => Stage::Ask,
        Body::Grant(_) => Stage::Grant,
    }
}

/// An equal batch, in time linear in its items.
///
/// # Errors
///
/// `OutOfMemory` where memory runs out.
pub fn copy_of<V: Datum, A: Datum>(
    alloc: Global,
    batch: &Batch<V, A>,
) -> Result<Batch<V, A>, OutOfMemory>
    ensures { IfOk result (λ copy. copy ≡ batch.now) }
{
    let body = copy_of_body(alloc, &batch.body)?;
    Ok(Batch {
        serial: batch.serial,
        epoch: batch.epoch,
        round: batch.round,
        sender: batch.sender,
        receiver: batch.receiver,
        body,
    })
}

fn copy_of_body<V: Datum, A: Datum>(
    alloc: Global,
    body: &Body<V, A>,
) -> Result<Body<V, A>, OutOfMemory>
    ensures { IfOk result (λ copy. copy ≡ body.now) }
{
    match body {
        Body::Gather(parts) => Ok(Body::Gather(parts.copy(alloc)?)),
        Body::Update(values) => Ok(Body::Update(values.copy(alloc)?)),
        Body::Signal(vertices) => Ok(Body::Signal(vertices.copy(alloc)?)),
        Body::Call(vertices) => Ok(Body::Call(vertices.copy(alloc)?)),
        Body::Ask(vertices) => Ok(Body::Ask(vertices.copy(alloc)?)),
        Body::Grant(copies) => Ok(Body::Grant(copies.copy(alloc)?)),
    }
}
