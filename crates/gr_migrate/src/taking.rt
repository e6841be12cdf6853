ghost use Rattle.std.specs.Prelude.{◌≡◌, List, IfOk};
ghost use Rattle.std.specs.List.{All};
ghost use Rattle.gr_base.specs.Rising.{RisesBy};
ghost use Rattle.gr_log.specs.Log.{Log};
ghost use Rattle.gr_rules.specs.Taken.{taken_edges as edges_taken};
ghost use Rattle.gr_migrate.specs.Asks.{taken_among};
ghost use Rattle.gr_migrate.specs.Ends.{KnowsMasters, retired_edges};

use crate::ends::LoggedEdge;
use crate::masters::place_after;
use gr_base::{Items, NumberedEdge, OutOfMemory};
use gr_copies::RebuildView;
use gr_numbered::last_of_each;
use std::alloc::Global;

/// The edges of places that retire that the cut gives to `me` under the masters after the rebuild, by rising number.
///
/// It takes time linear-logarithmic in the edges of places that retire.
///
/// # Errors
///
/// `OutOfMemory` if memory runs out.
pub fn taken_edges(
    alloc: Global,
    me: u8,
    retired: &[LoggedEdge],
    view: &RebuildView,
) -> Result<Items<NumberedEdge>, OutOfMemory>
    requires masters { All KnowsMasters retired.now }
    ensures edges { IfOk result (λ edges. edges ≡ taken_among view.now me retired.now) }
    ensures of_logs { IfOk result (λ edges. (logs : List Log) → retired.now ≡ retired_edges view.now logs
        → edges ≡ edges_taken view.now logs me) }
    ensures rise { IfOk result (λ edges. RisesBy (λ a. a.number) edges) }
{
    let mut taken = Items::new(alloc);
    for edge in retired {
        if place_after(view, edge) == me {
            taken.push(edge.arc)?;
        }
    }
    last_of_each(alloc, taken.as_slice())
}
