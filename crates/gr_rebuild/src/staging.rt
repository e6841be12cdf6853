ghost use Rattle.std.specs.Prelude.{◌≡◌, OnOk, OnErr};
ghost use Rattle.gr_base.specs.Rising.{RisesBy};
ghost use Rattle.gr_rows.specs.Layers.{vertex_of};
ghost use Rattle.gr_arcs.specs.Layers.{number_of};
ghost use Rattle.gr_log.specs.Directory.{with_items};

use gr_arcs::Arcs;
use gr_base::{NumberedEdge, OutOfMemory};
use gr_program::{Datum, VertexCopy};
use gr_rebirth::grant_into;
use gr_rows::Rows;
use std::alloc::Global;

/// Stages the copies that the place is granted, by rising vertex, and the edges that it takes, by rising number. It
/// takes time linear in the copies and edges of the place and these.
///
/// # Errors
///
/// `OutOfMemory` if there is no room, as `Rows::stage_copies` and `Arcs::stage_edges` say. Then nothing is staged, not
/// even what was staged before the call. If nothing was, rows and arcs are unchanged.
pub fn stage<V: Datum>(
    alloc: Global,
    rows: &mut Rows<V>,
    arcs: &mut Arcs,
    granted: &[VertexCopy<V>],
    taken: &[NumberedEdge],
) -> Result<(), OutOfMemory>
    requires granted_rise { RisesBy vertex_of granted.now }
    requires taken_rise { RisesBy number_of taken.now }
    ensures copies { OnOk result (rows.new
        ≡ record rows.old { pending = with_items vertex_of granted.now rows.old.pending }) }
    ensures edges { OnOk result (arcs.new
        ≡ record arcs.old { pending = with_items number_of taken.now arcs.old.pending }) }
    ensures no_copies { OnErr result (rows.new ≡ record rows.old { pending = rows.old.stable }) }
    ensures no_edges { OnErr result (arcs.new ≡ record arcs.old { pending = arcs.old.stable }) }
{
    if let Err(error) = stage_some(alloc, rows, arcs, granted, taken) {
        rows.discard();
        arcs.discard();
        return Err(error);
    }
    Ok(())
}

/// Stages the copies and then the edges, or only the copies if there is no room for the edges.
fn stage_some<V: Datum>(
    alloc: Global,
    rows: &mut Rows<V>,
    arcs: &mut Arcs,
    granted: &[VertexCopy<V>],
    taken: &[NumberedEdge],
) -> Result<(), OutOfMemory>
    requires granted_rise { RisesBy vertex_of granted.now }
    requires taken_rise { RisesBy number_of taken.now }
    ensures copies { OnOk result (rows.new.pending ≡ with_items vertex_of granted.now rows.old.pending) }
    ensures edges { OnOk result (arcs.new.pending ≡ with_items number_of taken.now arcs.old.pending) }
    ensures stable_copies { rows.new.stable ≡ rows.old.stable }
    ensures stable_edges { arcs.new.stable ≡ arcs.old.stable }
{
    grant_into(alloc, rows, granted)?;
    arcs.stage_edges(alloc, taken)
}
