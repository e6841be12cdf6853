ghost use Rattle.std.specs.Prelude.{◌≡◌, ◌∷◌, [], flat_map};
ghost use Rattle.gr_batch.specs.Bodies.{parts_of, values_of, signals_of, calls_of};
ghost use Rattle.gr_rules.specs.Inbox.{bodies};

use gr_batch::{Body, NewValue, Part, Stage};
use gr_flight::Inbox;
use gr_program::Datum;

/// The parts of sums that a party has sent, none where its batch is not there.
pub(crate) fn parts_from<V: Datum, A: Datum>(
    inbox: &Inbox<V, A>,
    sender: u8,
    epoch: u64,
) -> &[Part<A>]
    ensures { result.now ≡ flat_map parts_of (bodies inbox.now epoch Stage.Gather (sender ∷ [])) }
{
    match inbox.find(sender, epoch, Stage::Gather) {
        Some(batch) => match &batch.body {
            Body::Gather(parts) => parts.as_slice(),
            _ => &[],
        },
        None => &[],
    }
}

/// The new values that a party has sent, none where its batch is not there.
pub(crate) fn values_from<V: Datum, A: Datum>(
    inbox: &Inbox<V, A>,
    sender: u8,
    epoch: u64,
) -> &[NewValue<V>]
    ensures { result.now ≡ flat_map values_of (bodies inbox.now epoch Stage.Update (sender ∷ [])) }
{
    match inbox.find(sender, epoch, Stage::Update) {
        Some(batch) => match &batch.body {
            Body::Update(values) => values.as_slice(),
            _ => &[],
        },
        None => &[],
    }
}

/// The vertices that a party has signalled, none where its batch is not there.
pub(crate) fn signals_from<V: Datum, A: Datum>(
    inbox: &Inbox<V, A>,
    sender: u8,
    epoch: u64,
) -> &[u32]
    ensures { result.now ≡ flat_map signals_of (bodies inbox.now epoch Stage.Signal (sender ∷ [])) }
{
    match inbox.find(sender, epoch, Stage::Signal) {
        Some(batch) => match &batch.body {
            Body::Signal(vertices) => vertices.as_slice(),
            _ => &[],
        },
        None => &[],
    }
}

/// The vertices that a party has called, none where its batch is not there.
pub(crate) fn calls_from<V: Datum, A: Datum>(inbox: &Inbox<V, A>, sender: u8, epoch: u64) -> &[u32]
    ensures { result.now ≡ flat_map calls_of (bodies inbox.now epoch Stage.Call (sender ∷ [])) }
{
    match inbox.find(sender, epoch, Stage::Call) {
        Some(batch) => match &batch.body {
            Body::Call(vertices) => vertices.as_slice(),
            _ => &[],
        },
        None => &[],
    }
}
