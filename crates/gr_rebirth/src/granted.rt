ghost use Rattle.std.specs.Prelude.{◌≡◌, OnOk, OnErr};
ghost use Rattle.gr_rows.specs.Layers.{vertex_of};
ghost use Rattle.gr_log.specs.Directory.{with_items};

use gr_base::OutOfMemory;
use gr_numbered::last_of_each;
use gr_program::{Datum, VertexCopy};
use gr_rows::Rows;
use std::alloc::Global;

/// Stages the copies of a Grant body, in whatever order they stand; of several copies of a vertex the last one. It
/// takes time linear in the copies of the place, and linear-logarithmic in these.
///
/// # Errors
///
/// `OutOfMemory` if there is no room, as `Rows::stage_copies` says. Then both layers are as before.
pub fn grant_into<V: Datum>(
    alloc: Global,
    rows: &mut Rows<V>,
    body: &[VertexCopy<V>],
) -> Result<(), OutOfMemory>
    ensures ok { OnOk result (rows.new.pending ≡ with_items vertex_of body.now rows.old.pending) }
    ensures err { OnErr result (rows.new ≡ rows.old) }
    ensures stable { rows.new.stable ≡ rows.old.stable }
{
    // A look at the count tells that the pending copies rise.
    let _count = rows.pending_count();
    let last = last_of_each(alloc, body)?;
    rows.stage_copies(alloc, last.as_slice())
}
