ghost use Rattle.std.specs.Prelude.{◌≡◌, ◌≤◌, ◌<◌, true, ℕ, List, [], unwrap_or, IfOk};
ghost use Rattle.std.specs.List.{All, list_any};
ghost use Rattle.std.specs.BTreeMap as table;
ghost use Rattle.std.specs.Ordering.{nat_cmp};
ghost use Rattle.gr_base.specs.Rising.{RisesBy, has as is_in};
ghost use Rattle.gr_rules.specs.Grants.{grant_body, granted_value as value_for, granted_due as due_for};
ghost use Rattle.gr_migrate.specs.Askers.{askers, AreAskers};
ghost use Rattle.gr_migrate.specs.Granted.{grant_line, holders_after, holders_for};

use crate::masters::{is_granter, is_retiring, master_after};
use gr_base::{Items, OutOfMemory, PlaceSet};
use gr_copies::RebuildView;
use gr_program::{Datum, VertexCopy};
use gr_rebirth::LogEntry;
use gr_rows::Rows;
use std::alloc::Global;
use std::collections::BTreeMap;

/// A place that asks for a vertex.
#[derive(Clone, Copy, Debug, PartialEq, Eq)]
pub struct AskFrom {
    pub vertex: u32,
    pub asker: u8,
}

/// The new copies that `me` grants to the place `to` in a recovery, by rising vertex: of each vertex that it acts for
/// and that lost a holder or is asked for, where `to` is to hold it. The asks stand in any order. With `to` equal to
/// `me` they are the place's own copies. A `to` that is no place gets none.
///
/// It takes a search for each copy and each ask.
///
/// # Errors
///
/// `OutOfMemory` if memory runs out.
pub fn grants<V: Datum>(
    alloc: Global,
    me: u8,
    rows: &Rows<V>,
    asked: &[AskFrom],
    view: &RebuildView,
    to: u8,
) -> Result<Items<VertexCopy<V>>, OutOfMemory>
    requires places { view.now.places ≤ 64 }
    requires masters { All (λ c. is_in c.holders c.master ≡ true) rows.now.stable }
    requires askers { All (λ a. a.asker < 64) asked.now }
    ensures copies { IfOk result (λ body. body ≡ grant_body view.now 0 me (askers asked.now) rows.now.stable to) }
    ensures any_askers { IfOk result (λ body. (asked_by : ℕ → List ℕ) → AreAskers asked.now asked_by
        → body ≡ grant_body view.now 0 me asked_by rows.now.stable to) }
    ensures rise { IfOk result (λ body. RisesBy (λ c. c.vertex) body) }
{
    let sets = askers_by_vertex(alloc, asked)?;
    let mut granted = Items::new(alloc);
    let mut i = 0;
    while let Some(copy) = rows.at(i) {
        let askers = askers_of(&sets, copy.vertex);
        if let Some(grant) = grant(&copy, askers, me, view, to) {
            granted.push(grant)?;
        }
        i += 1;
    }
    Ok(granted)
}

/// For each vertex that is asked for, who asks.
fn askers_by_vertex(
    alloc: Global,
    asked: &[AskFrom],
) -> Result<BTreeMap<u32, PlaceSet>, OutOfMemory>
    requires { All (λ a. a.asker < 64) asked.now }
    ensures { IfOk result (λ sets. (v : ℕ) → unwrap_or (table.get nat_cmp sets v) [] ≡ askers asked.now v) }
{
    let mut sets = BTreeMap::new(alloc);
    for ask in asked {
        let set = askers_of(&sets, ask.vertex).with(ask.asker);
        sets.insert(ask.vertex, set)?;
    }
    Ok(sets)
}

/// Who asks for a vertex.
fn askers_of(sets: &BTreeMap<u32, PlaceSet>, v: u32) -> PlaceSet
    ensures { result ≡ unwrap_or (table.get nat_cmp sets.now v) [] }
{
    sets.get(&v).copied().unwrap_or(PlaceSet::none())
}

/// The new copy that `me` grants to `to`, where it grants one.
fn grant<V: Datum>(
    copy: &VertexCopy<V>,
    askers: PlaceSet,
    me: u8,
    view: &RebuildView,
    to: u8,
) -> Option<VertexCopy<V>>
    requires places { view.now.places ≤ 64 }
    requires master { is_in copy.now.holders copy.now.master ≡ true }
    ensures { result ≡ grant_line view.now me askers to copy.now }
{
    let entry = LogEntry {
        vertex: copy.vertex,
        indeg: copy.indeg,
        outdeg: copy.outdeg,
        master: copy.master,
        holders: copy.holders,
    };
    if !is_granter(view, &entry, me) {
        return None;
    }
    let holders = granted_holders(view, copy.holders, askers, to)?;
    Some(VertexCopy {
        vertex: copy.vertex,
        indeg: copy.indeg,
        outdeg: copy.outdeg,
        master: master_after(view, &entry),
        holders,
        value: granted_value(copy, view, to),
        due: granted_due(copy, view),
    })
}

/// The holders of a vertex that is granted anew, where `to` is one of them.
fn granted_holders(
    view: &RebuildView,
    holders: PlaceSet,
    askers: PlaceSet,
    to: u8,
) -> Option<PlaceSet>
    requires { view.now.places ≤ 64 }
    ensures { result ≡ holders_for view.now holders askers to }
{
    if to >= view.places {
        return None;
    }
    if (askers.count() == 0) & !meets(view.dead, holders) {
        return None;
    }
    let holders = new_holders(view, holders, askers);
    if holders.has(to) { Some(holders) } else { None }
}

/// The value that the new copy keeps.
fn granted_value<V: Datum>(copy: &VertexCopy<V>, view: &RebuildView, to: u8) -> Option<V>
    requires { is_in copy.now.holders copy.now.master ≡ true }
    ensures { result ≡ value_for view.now 0 copy.now to }
{
    let _known = copy.holders.has(0);
    let hidden = view.forgetful & (copy.outdeg == 0);
    let stays = (copy.master == to) & !view.dead.has(copy.master);
    if hidden & !stays { None } else { copy.value }
}

/// Whether the new copy is due: where the master of a hidden vertex died, it is applied once more.
fn granted_due<V: Datum>(copy: &VertexCopy<V>, view: &RebuildView) -> bool
    requires { is_in copy.now.holders copy.now.master ≡ true }
    ensures { result ≡ due_for view.now 0 copy.now }
{
    let _known = copy.holders.has(0);
    let hidden = view.forgetful & (copy.outdeg == 0);
    copy.due | (hidden & view.dead.has(copy.master))
}

/// Whether two sets have a place in common.
fn meets(left: PlaceSet, right: PlaceSet) -> bool
    ensures { result ≡ list_any (is_in left) right }
{
    let _known = right.has(0);
    for p in 0..64 {
        if left.has(p) & right.has(p) {
            return true;
        }
    }
    false
}

/// The holders without those that retire, and those who ask.
fn new_holders(view: &RebuildView, holders: PlaceSet, askers: PlaceSet) -> PlaceSet
    requires { view.now.places ≤ 64 }
    ensures { result ≡ holders_after view.now holders askers }
{
    let mut places = PlaceSet::none();
    for p in 0..view.places {
        if (holders.has(p) & !is_retiring(view, p)) | askers.has(p) {
            places = places.with(p);
        }
    }
    places
}
