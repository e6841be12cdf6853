ghost use Rattle.std.specs.Prelude.{◌≡◌, ◌<◌, true};
ghost use Rattle.gr_base.specs.Rising.{has as is_in};
ghost use Rattle.gr_copies.specs.Granter.{is_retiring as retires, granter as acting};
ghost use Rattle.gr_rules.specs.Taken.{is_granter as grants, master_after as master_then};
ghost use Rattle.gr_migrate.specs.Ends.{place_after as place_then, KnowsMaster};

use crate::ends::LoggedEdge;
use gr_base::Directory;
use gr_copies::{RebuildView, acting_master};
use gr_cut::{edge_place, is_high};
use gr_rebirth::LogEntry;

/// Whether a place is dead and does not start anew.
pub(crate) fn is_retiring(view: &RebuildView, p: u8) -> bool
    requires { p < 64 }
    ensures { result ≡ retires view.now p }
{
    view.dead.has(p) & !view.reborn.has(p)
}

/// Who grants a vertex: its master, or the next holder in ring order that is not dead.
fn granter(view: &RebuildView, entry: &LogEntry) -> Option<u8>
    requires { KnowsMaster entry.now }
    ensures { result ≡ acting view.now.dead entry.now.master entry.now.holders }
{
    let directory = Directory {
        vertex: entry.vertex,
        master: entry.master,
        holders: entry.holders,
    };
    acting_master(&directory, view.dead)
}

/// Whether a place grants a vertex.
pub(crate) fn is_granter(view: &RebuildView, entry: &LogEntry, p: u8) -> bool
    requires { KnowsMaster entry.now }
    ensures { result ≡ grants view.now entry.now p }
{
    match granter(view, entry) {
        Some(found) => found == p,
        None => false,
    }
}

/// The master of a vertex after the rebuild: its granter in the place of one that retires.
pub(crate) fn master_after(view: &RebuildView, entry: &LogEntry) -> u8
    requires { KnowsMaster entry.now }
    ensures { result ≡ master_then view.now entry.now }
{
    let _known = entry.holders.has(0);
    if is_retiring(view, entry.master) {
        granter(view, entry).unwrap_or(entry.master)
    } else {
        entry.master
    }
}

/// The place of an edge under the masters after the rebuild.
pub(crate) fn place_after(view: &RebuildView, edge: &LoggedEdge) -> u8
    requires src { KnowsMaster edge.now.src }
    requires dst { KnowsMaster edge.now.dst }
    ensures { result ≡ place_then view.now edge.now }
{
    let src = master_after(view, &edge.src);
    let dst = master_after(view, &edge.dst);
    edge_place(src, dst, is_high(edge.dst.indeg, view.theta))
}
