ghost use Rattle.std.specs.Prelude.{◌≡◌, ◌≤◌, ◌∷◌, ◌++◌, [], true, flat_map, IfOk};
ghost use Rattle.std.specs.List.{All};
ghost use Rattle.gr_base.specs.Rising.{RisesBy};
ghost use Rattle.gr_batch.specs.Bodies.{grants_of};
ghost use Rattle.gr_rows.specs.Layers.{vertex_of};
ghost use Rattle.gr_rules.specs.Inbox.{bodies};
ghost use Rattle.gr_rules.specs.Rows.{entry};
ghost use Rattle.gr_rules.specs.Grants.{wanted};
ghost use Rattle.gr_migrate.specs.Ends.{KnowsMaster};
ghost use Rattle.gr_rebuild.specs.Granted.{granted as all_granted, granted_to as copies_granted, RepairReady};

use crate::asking::asked;
use crate::place::PlaceInRebuild;
use gr_base::{Items, OutOfMemory, PlaceSet};
use gr_batch::{Body, Stage};
use gr_flight::Inbox;
use gr_migrate::grants;
use gr_numbered::last_of_each;
use gr_program::{Datum, VertexCopy};
use gr_repair::grants_for_short;
use gr_rows::Rows;
use std::alloc::Global;

/// The copies that a place grants to the place `to`, by rising vertex. In a recovery it grants those that lost a holder
/// or that some party asks for; in a repair, where nobody asks, those that have too few holders. With `to` equal to the
/// place itself they are its own.
///
/// It takes a search for each copy and each ask, and one of the inbox for each other party.
///
/// # Errors
///
/// `OutOfMemory` if memory runs out.
pub fn granted_to<V: Datum, A: Datum>(
    alloc: Global,
    place: &PlaceInRebuild,
    rows: &Rows<V>,
    inbox: &Inbox<V, A>,
    to: u8,
) -> Result<Items<VertexCopy<V>>, OutOfMemory>
    requires places { place.now.view.places ≤ 64 }
    requires masters { All (λ c. KnowsMaster (entry c)) rows.now.stable }
    requires repair { place.now.repair ≡ true
        → RepairReady inbox.now place.now.epoch place.now.others place.now.view rows.now.stable }
    ensures body { IfOk result (λ body.
        body ≡ copies_granted inbox.now place.now.epoch place.now.others place.now.view
        (wanted place.now.repair place.now.view) place.now.place rows.now.stable to) }
    ensures rise { IfOk result (λ body. RisesBy vertex_of body) }
{
    if place.repair {
        grants_for_short(alloc, place.place, rows, &place.view, to)
    } else {
        let asked = asked(alloc, inbox, place.epoch, place.others)?;
        grants(alloc, place.place, rows, asked.as_slice(), &place.view, to)
    }
}

/// All copies that are granted to a place, by the other parties and by itself, by rising vertex. Of several copies of a
/// vertex the place's own stands, or else that of the greatest sender.
///
/// It takes time linear-logarithmic in the numbers of copies and of asks.
///
/// # Errors
///
/// `OutOfMemory` if memory runs out.
pub fn granted<V: Datum, A: Datum>(
    alloc: Global,
    place: &PlaceInRebuild,
    rows: &Rows<V>,
    inbox: &Inbox<V, A>,
) -> Result<Items<VertexCopy<V>>, OutOfMemory>
    requires places { place.now.view.places ≤ 64 }
    requires masters { All (λ c. KnowsMaster (entry c)) rows.now.stable }
    requires repair { place.now.repair ≡ true
        → RepairReady inbox.now place.now.epoch place.now.others place.now.view rows.now.stable }
    ensures copies { IfOk result (λ copies. copies
        ≡ all_granted inbox.now place.now.epoch place.now.others place.now.view
        (wanted place.now.repair place.now.view) place.now.place rows.now.stable) }
    ensures rise { IfOk result (λ copies. RisesBy vertex_of copies) }
{
    let mut copies = sent_copies(alloc, inbox, place.epoch, place.others)?;
    let own = granted_to(alloc, place, rows, inbox, place.place)?;
    copies.extend_from_slice(own.as_slice())?;
    last_of_each(alloc, copies.as_slice())
}

/// The copies that the other parties grant in an epoch, sender by sender.
fn sent_copies<V: Datum, A: Datum>(
    alloc: Global,
    inbox: &Inbox<V, A>,
    epoch: u64,
    others: PlaceSet,
) -> Result<Items<VertexCopy<V>>, OutOfMemory>
    ensures { IfOk result (λ copies. copies ≡ flat_map grants_of (bodies inbox.now epoch Stage.Grant others)) }
{
    // A look into the set tells that its places rise and are below 64.
    let _places = others.has(0);
    let mut copies = Items::new(alloc);
    for q in 0..64u8 {
        if others.has(q) {
            copies.extend_from_slice(grants_from(inbox, q, epoch))?;
        }
    }
    Ok(copies)
}

/// The copies that a party grants, none where its batch is not there.
fn grants_from<V: Datum, A: Datum>(inbox: &Inbox<V, A>, sender: u8, epoch: u64) -> &[VertexCopy<V>]
    ensures { result.now ≡ flat_map grants_of (bodies inbox.now epoch Stage.Grant (sender ∷ [])) }
{
    match inbox.find(sender, epoch, Stage::Grant) {
        Some(batch) => match &batch.body {
            Body::Grant(copies) => copies.as_slice(),
            _ => &[],
        },
        None => &[],
    }
}
