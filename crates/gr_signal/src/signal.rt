ghost use Rattle.std.specs.Prelude.{◌≡◌, ◌<◌, ◌==◌, ◌&&◌, MatchOption, IfOk, false};
ghost use Rattle.gr_base.specs.Rising.{RisesBy, has};
ghost use Rattle.gr_rows.specs.Layers.{CopiesRise};
ghost use Rattle.gr_rules.specs.Rows.{row};
ghost use Rattle.gr_rules.specs.Round.{call_body};

use gr_base::{Items, OutOfMemory};
use gr_program::Datum;
use gr_rows::Rows;
use std::alloc::Global;

/// The vertices of `next` that `place` masters and the place `to` holds, by the stable copies: what the first calls the
/// second for. The vertices of `next` rise.
///
/// It takes a search among the copies for each vertex of `next`.
///
/// # Errors
///
/// `OutOfMemory` if memory runs out.
pub fn calls<V: Datum>(
    alloc: Global,
    rows: &Rows<V>,
    next: &[u32],
    place: u8,
    to: u8,
) -> Result<Items<u32>, OutOfMemory>
    requires rise { RisesBy (λ v. v) next.now }
    requires place { to < 64 }
    ensures call { IfOk result (λ body. body ≡ call_body next.now rows.now.stable place to) }
    ensures rise { IfOk result (λ body. RisesBy (λ v. v) body) }
{
    let mut body = Items::new(alloc);
    for v in next {
        if is_called(rows, *v, place, to) {
            body.push(*v)?;
        }
    }
    Ok(body)
}

/// Whether a vertex has a stable copy that names `place` as its master and the place `to` among its holders.
fn is_called<V: Datum>(rows: &Rows<V>, v: u32, place: u8, to: u8) -> bool
    requires place { to < 64 }
    ensures called { MatchOption (row rows.now.stable v) (result ≡ false)
        (λ c. result ≡ ((c.master == place) && has c.holders to)) }
    ensures rise { CopiesRise rows.now }
{
    rows.get(v)
        .is_some_and(|copy| copy.master == place && copy.holders.has(to))
}
