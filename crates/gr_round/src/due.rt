ghost use Rattle.std.specs.Prelude.{◌≡◌, ◌<◌, ◌^◌, ◌==◌, ◌&&◌, length};
ghost use Rattle.gr_rules.specs.AtPlace.{due_count};

use gr_program::{Datum, VertexCopy};
use gr_rows::Rows;

/// How many vertices that a place masters are due in its pending copies. It takes no memory, and time linear in the
/// number of due pending copies.
pub fn due_count<V: Datum>(rows: &Rows<V>, place: u8) -> u32
    ensures { result ≡ due_count place rows.now.pending }
{
    // The length is below 2^32, so the count is too.
    let _length = rows.pending_count();
    let mut count = 0;
    let mut i = 0;
    while let Some(copy) = rows.pending_due_at(i) {
        if is_counted(place, &copy) {
            count += 1;
        }
        i += 1;
    }
    count
}

/// Whether the place masters a copy's vertex and it is due.
fn is_counted<V: Datum>(place: u8, copy: &VertexCopy<V>) -> bool
    ensures { result ≡ ((copy.now.master == place) && copy.now.due) }
{
    copy.master == place && copy.due
}
