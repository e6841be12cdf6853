ghost use Rattle.std.specs.Prelude.{◌≡◌, ◌<◌, ◌++◌, ◌∷◌, [], map, flat_map, IfOk, OnOk};
ghost use Rattle.std.specs.List.{All};
ghost use Rattle.gr_batch.specs.Bodies.{asks_of};
ghost use Rattle.gr_rules.specs.Inbox.{bodies};
ghost use Rattle.gr_migrate.specs.Askers.{AreAskers};
ghost use Rattle.gr_rebuild.specs.Asked.{asks_in, asked_for};

use gr_base::{Items, OutOfMemory, PlaceSet};
use gr_batch::{Body, Stage};
use gr_flight::Inbox;
use gr_migrate::AskFrom;
use gr_program::Datum;
use std::alloc::Global;

/// What the other parties ask for in an epoch, sender by sender and in the order of their batches.
///
/// It takes time linear in the number of asks, and a search of the inbox for each sender.
///
/// # Errors
///
/// `OutOfMemory` if memory runs out.
pub fn asked<V: Datum, A: Datum>(
    alloc: Global,
    inbox: &Inbox<V, A>,
    epoch: u64,
    others: PlaceSet,
) -> Result<Items<AskFrom>, OutOfMemory>
    ensures asks { IfOk result (λ asked. asked ≡ asks_in inbox.now epoch others) }
    ensures askers { IfOk result (λ asked. AreAskers asked (asked_for inbox.now epoch others)) }
    ensures few { IfOk result (λ asked. All (λ a. a.asker < 64) asked) }
{
    // A look into the set tells that its places rise and are below 64.
    let _places = others.has(0);
    let mut asked = Items::new(alloc);
    for q in 0..64u8 {
        if others.has(q) {
            add_asks(&mut asked, asks_from(inbox, q, epoch), q)?;
        }
    }
    Ok(asked)
}

/// Adds the asks of one place.
fn add_asks(asked: &mut Items<AskFrom>, vertices: &[u32], asker: u8) -> Result<(), OutOfMemory>
    ensures { OnOk result (asked.new ≡ asked.old ++ map (λ v. record { vertex = v; asker = asker }) vertices.now) }
{
    for vertex in vertices {
        asked.push(AskFrom {
            vertex: *vertex,
            asker,
        })?;
    }
    Ok(())
}

/// The vertices that a party asks for, none where its batch is not there.
fn asks_from<V: Datum, A: Datum>(inbox: &Inbox<V, A>, sender: u8, epoch: u64) -> &[u32]
    ensures { result.now ≡ flat_map asks_of (bodies inbox.now epoch Stage.Ask (sender ∷ [])) }
{
    match inbox.find(sender, epoch, Stage::Ask) {
        Some(batch) => match &batch.body {
            Body::Ask(vertices) => vertices.as_slice(),
            _ => &[],
        },
        None => &[],
    }
}
