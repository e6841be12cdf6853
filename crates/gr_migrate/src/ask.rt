ghost use Rattle.std.specs.Prelude.{◌≡◌, ◌∷◌, [], List, IfOk, OnOk};
ghost use Rattle.std.specs.List.{All};
ghost use Rattle.gr_base.specs.Rising.{RisesBy};
ghost use Rattle.gr_log.specs.Log.{Log};
ghost use Rattle.gr_rules.specs.Taken.{ask_body};
ghost use Rattle.gr_migrate.specs.Asks.{asked_among, is_missing_from, with_missing};
ghost use Rattle.gr_migrate.specs.Ends.{KnowsMaster, KnowsMasters, retired_edges};

use crate::ends::LoggedEdge;
use crate::masters::{is_granter, place_after};
use gr_base::{Items, OutOfMemory};
use gr_copies::RebuildView;
use gr_program::Datum;
use gr_rebirth::LogEntry;
use gr_rows::Rows;
use std::alloc::Global;
use std::collections::BTreeSet;

/// The vertices that the place `me` with these rows asks the place `to` for: of the edges that it takes over from
/// places that retire the ends that it has no copy of and that `to` grants, rising.
///
/// It takes time linear in the edges of places that retire, and searches for each edge that is taken.
///
/// # Errors
///
/// `OutOfMemory` if memory runs out.
pub fn asks<V: Datum>(
    alloc: Global,
    me: u8,
    rows: &Rows<V>,
    retired: &[LoggedEdge],
    view: &RebuildView,
    to: u8,
) -> Result<Items<u32>, OutOfMemory>
    requires masters { All KnowsMasters retired.now }
    ensures asked { IfOk result (λ body. body ≡ asked_among view.now me rows.now.stable to retired.now) }
    ensures body { IfOk result (λ body. (logs : List Log) → retired.now ≡ retired_edges view.now logs
        → body ≡ ask_body view.now logs me rows.now.stable to) }
    ensures rise { IfOk result (λ body. RisesBy (λ v. v) body) }
{
    let mut asked = BTreeSet::new(alloc);
    for edge in retired {
        if place_after(view, edge) == me {
            add_asked(&mut asked, rows, &edge.src, view, to)?;
            add_asked(&mut asked, rows, &edge.dst, view, to)?;
        }
    }
    Ok(Items::from_vec(asked.into_iter().collect(alloc)?))
}

/// Adds the vertex of an entry if it has no copy here and `to` grants it.
fn add_asked<V: Datum>(
    asked: &mut BTreeSet<u32>,
    rows: &Rows<V>,
    entry: &LogEntry,
    view: &RebuildView,
    to: u8,
) -> Result<(), OutOfMemory>
    requires { KnowsMaster entry.now }
    ensures { OnOk result (asked.new.keys ≡ with_missing view.now rows.now.stable to asked.old.keys (entry.now ∷ [])) }
{
    if is_asked(rows, entry, view, to) {
        asked.insert(entry.vertex)?;
    }
    Ok(())
}

/// Whether a vertex has no copy here and `to` grants it.
fn is_asked<V: Datum>(rows: &Rows<V>, entry: &LogEntry, view: &RebuildView, to: u8) -> bool
    requires { KnowsMaster entry.now }
    ensures { result ≡ is_missing_from view.now rows.now.stable to entry.now }
{
    if rows.get(entry.vertex).is_some() {
        return false;
    }
    is_granter(view, entry, to)
}
