ghost use Rattle.std.specs.Prelude.{◌≡◌, IfOk};
ghost use Rattle.gr_base.specs.Places.{IsPlaces};
ghost use Rattle.gr_base.specs.Rising.{RisesBy};
ghost use Rattle.gr_rules.specs.Round.{vertices_where};
ghost use Rattle.gr_repair.specs.Short.{is_short as has_few};

use gr_base::{Items, OutOfMemory, PlaceSet};
use gr_program::{Datum, VertexCopy};
use gr_rows::Rows;
use std::alloc::Global;

/// The vertices of stable copies that the place `me` masters and that have too few holders: fewer than `losses` and one
/// more, and fewer than there are live places. They rise. It takes time linear in the number of copies.
///
/// # Errors
///
/// `OutOfMemory` if memory runs out.
pub fn short<V: Datum>(
    alloc: Global,
    me: u8,
    rows: &Rows<V>,
    losses: u8,
    live: PlaceSet,
) -> Result<Items<u32>, OutOfMemory>
    ensures short { IfOk result (λ vertices. vertices ≡ vertices_where (has_few me losses live) rows.now.stable) }
    ensures rise { IfOk result (λ vertices. RisesBy (λ v. v) vertices) }
{
    let mut vertices = Items::new(alloc);
    let mut i = 0;
    while let Some(copy) = rows.at(i) {
        if is_short(me, &copy, losses, live) {
            vertices.push(copy.vertex)?;
        }
        i += 1;
    }
    Ok(vertices)
}

/// Whether a place masters the vertex of a copy, and it has too few holders.
pub(crate) fn is_short<V: Datum>(me: u8, copy: &VertexCopy<V>, losses: u8, live: PlaceSet) -> bool
    ensures short { result ≡ has_few me losses live copy.now }
    ensures places { IsPlaces live }
{
    let _known = live.has(0);
    let wanted = (u32::from(losses) + 1).min(live.count());
    copy.master == me && copy.holders.count() < wanted
}
