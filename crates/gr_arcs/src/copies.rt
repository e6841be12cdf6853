ghost use Rattle.std.specs.Prelude.{◌≡◌, ◌≤◌, OnOk, length};
ghost use Rattle.std.specs.Vec.{vec_capacity};

use gr_base::{NumberedEdge, OutOfMemory};

/// Reserves the room for so many edges in all.
pub fn make_room(edges: &mut Vec<NumberedEdge>, count: usize) -> Result<(), OutOfMemory>
    ensures items { edges.new.items ≡ edges.old.items }
    ensures room { OnOk result (count ≤ vec_capacity edges.new) }
    ensures capacity { vec_capacity edges.old ≤ vec_capacity edges.new }
{
    edges.reserve(count.saturating_sub(edges.len()))?;
    Ok(())
}

/// Makes a list of edges equal to another, for which it has room, in linear time.
pub fn copy_over(edges: &mut Vec<NumberedEdge>, from: &[NumberedEdge])
    requires { length from.now ≤ vec_capacity edges.old }
    ensures items { edges.new.items ≡ from.now }
    ensures capacity { vec_capacity edges.old ≤ vec_capacity edges.new }
{
    edges.clear();
    let _ = edges.extend_from_slice(from);
}
