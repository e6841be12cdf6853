ghost use Rattle.std.specs.Prelude.{◌≡◌, ◌≤◌, ◌<◌, ◌+◌, ◌==◌, ◌&&◌, ◌||◌, [], if◌then◌else◌};
ghost use Rattle.std.specs.Prelude.{None, ℕ, not, true, nat_lt, length, IfOk};
ghost use Rattle.std.specs.List.{All, filter};
ghost use Rattle.gr_base.specs.Rising.{RisesBy, has};
ghost use Rattle.gr_base.specs.Places.{below};
ghost use Rattle.gr_copies.specs.Holders.{extras as extra_holders};
ghost use Rattle.gr_rows.specs.Layers.{vertex_of};
ghost use Rattle.gr_rules.specs.Rows.{is_hidden};
ghost use Rattle.gr_rules.specs.Grants.{wanted, grant_body, granted_copy, is_granted_to};
ghost use Rattle.gr_repair.specs.Short.{IsHeldLive};

use crate::missing::is_short;
use gr_base::{Directory, Items, OutOfMemory, PlaceSet};
use gr_copies::{RebuildView, extras};
use gr_program::{Datum, VertexCopy};
use gr_rows::Rows;
use std::alloc::Global;

/// The copies that the place `me` grants to the place `to` in a repair, where nobody asks for any: new copies of the
/// vertices that `me` masters and that get further holders, for those of which `to` is to be a holder. With `to` equal
/// to `me` they are its own.
///
/// It takes time linear in the number of copies.
///
/// # Errors
///
/// `OutOfMemory` if memory runs out.
pub fn grants_for_short<V: Datum>(
    alloc: Global,
    me: u8,
    rows: &Rows<V>,
    view: &RebuildView,
    to: u8,
) -> Result<Items<VertexCopy<V>>, OutOfMemory>
    requires places { view.now.places ≤ 64 }
    requires live { All (λ q. q < view.now.places) view.now.live }
    requires dead { view.now.dead ≡ [] }
    requires held { All (IsHeldLive view.now.live) rows.now.stable }
    ensures body { IfOk result (λ body. body
        ≡ grant_body view.now (wanted true view.now) me (λ _. []) rows.now.stable to) }
    ensures rise { IfOk result (λ body. RisesBy vertex_of body) }
{
    let mut body = Items::new(alloc);
    let mut i = 0;
    while let Some(copy) = rows.at(i) {
        if let Some(granted) = copy_for(me, &copy, view, to) {
            body.push(granted)?;
        }
        i += 1;
    }
    Ok(body)
}

/// The new copy of a vertex for the place `to`, where `me` masters the vertex, it has too few holders and `to` is to
/// be one of them.
fn copy_for<V: Datum>(
    me: u8,
    copy: &VertexCopy<V>,
    view: &RebuildView,
    to: u8,
) -> Option<VertexCopy<V>>
    requires places { view.now.places ≤ 64 }
    requires live { All (λ q. q < view.now.places) view.now.live }
    requires dead { view.now.dead ≡ [] }
    requires held { IsHeldLive view.now.live copy.now }
    ensures { result ≡ (if is_granted_to view.now (wanted true view.now) me to copy.now []
        then Some (granted_copy view.now (wanted true view.now) copy.now [] to) else None) }
{
    if !is_short(me, copy, view.losses, view.live) {
        return None;
    }
    if to >= view.places {
        // There is no such place.
        return None;
    }
    let holders = either(copy.holders, extras_of(copy, view), view.places);
    if !holders.has(to) {
        return None;
    }
    let value = value_at(copy, view.forgetful, to);
    Some(VertexCopy {
        holders,
        value,
        ..*copy
    })
}

/// The places that are to hold a vertex besides its holders.
fn extras_of<V: Datum>(copy: &VertexCopy<V>, view: &RebuildView) -> PlaceSet
    requires places { view.now.places ≤ 64 }
    requires live { All (λ q. q < view.now.places) view.now.live }
    requires held { IsHeldLive view.now.live copy.now }
    ensures { (q : ℕ) → has result q
        ≡ has (extra_holders view.now.live (view.now.losses + 1) copy.now.master copy.now.holders) q }
{
    let directory = Directory {
        vertex: copy.vertex,
        master: copy.master,
        holders: copy.holders,
    };
    let need = u32::from(view.losses) + 1;
    extras(&directory, view.live, view.places, need)
}

/// The places below a count that are in either set.
fn either(left: PlaceSet, right: PlaceSet, places: u8) -> PlaceSet
    requires { places ≤ 64 }
    ensures { result ≡ filter (λ q. has left q || has right q) (below places) }
{
    let mut both = PlaceSet::none();
    for p in 0..places {
        if left.has(p) | right.has(p) {
            both = both.with(p);
        }
    }
    both
}

/// The value that the place `to` keeps of a vertex: under a forgetful program that of a vertex without readers is kept
/// at its master alone.
fn value_at<V: Datum>(copy: &VertexCopy<V>, forgetful: bool, to: u8) -> Option<V>
    ensures { result ≡ (if is_hidden forgetful copy.now && not (copy.now.master == to) then None else copy.now.value) }
{
    if !forgetful {
        return copy.value;
    }
    if copy.outdeg != 0 {
        return copy.value;
    }
    if copy.master == to {
        return copy.value;
    }
    None
}
