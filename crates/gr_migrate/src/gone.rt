ghost use Rattle.std.specs.Prelude.{◌≡◌, map, IfOk, OnOk};
ghost use Rattle.std.specs.List.{filter, fold};
ghost use Rattle.gr_base.specs.Rising.{includes};
ghost use Rattle.gr_base.specs.Places.{with_place};
ghost use Rattle.gr_rules.specs.Lost.{lost_of};

use crate::ends::records_at;
use gr_base::{Items, OutOfMemory, PlaceSet};
use gr_log::EdgeLog;
use gr_rebirth::{LogEntry, directory};
use std::alloc::Global;
use std::collections::BTreeSet;

/// The vertices that are lost with dead places, rising: those of which the log of a dead place knows dead holders only.
///
/// It takes a search for each committed record of a dead place. A dead place without a log counts as one whose log is
/// empty.
///
/// # Errors
///
/// `OutOfMemory` if memory runs out.
pub fn lost(alloc: Global, logs: &[EdgeLog], dead: PlaceSet) -> Result<Items<u32>, OutOfMemory>
    ensures { IfOk result (λ vertices. vertices ≡ lost_of dead logs.now) }
{
    let mut vertices = BTreeSet::new(alloc);
    let _known = dead.has(0);
    for p in 0..64 {
        if dead.has(p) {
            let records = records_at(alloc, logs, p)?;
            let entries = directory(alloc, records.as_slice())?;
            add_lost(&mut vertices, entries.as_slice(), dead)?;
        }
    }
    Ok(Items::from_vec(vertices.into_iter().collect(alloc)?))
}

/// Adds the vertices of those entries whose holders are all dead.
fn add_lost(
    vertices: &mut BTreeSet<u32>,
    entries: &[LogEntry],
    dead: PlaceSet,
) -> Result<(), OutOfMemory>
    ensures { OnOk result (vertices.new.keys ≡ fold with_place vertices.old.keys
        (map (λ e. e.vertex) (filter (λ e. includes dead e.holders) entries.now))) }
{
    for entry in entries {
        if all_in(dead, entry.holders) {
            vertices.insert(entry.vertex)?;
        }
    }
    Ok(())
}

/// Whether each place of a set is in another.
fn all_in(places: PlaceSet, part: PlaceSet) -> bool
    ensures { result ≡ includes places part }
{
    let _known = part.has(0);
    for p in 0..64 {
        if part.has(p) && !places.has(p) {
            return false;
        }
    }
    true
}
