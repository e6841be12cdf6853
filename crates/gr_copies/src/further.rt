ghost use Rattle.std.specs.Prelude.{◌≡◌, ℕ, ◌<◌, ◌≤◌, ◌-◌, ◌||◌, true, false, length, take, min};
ghost use Rattle.std.specs.List.{All, filter, range_with_len};
ghost use Rattle.gr_base.specs.Rising.{has, includes};
ghost use Rattle.gr_base.specs.Places.{IsPlaces, below, ring};
ghost use Rattle.gr_copies.specs.Holders.{extras as extra_holders};

use gr_base::{Directory, PlaceSet};

/// The live places that are to hold a vertex besides its holders: the next in ring order after its master, until
/// `need` holders stand, or as many as there are live places.
pub fn extras(dir: &Directory, live: PlaceSet, places: u8, need: u32) -> PlaceSet
    requires count { places ≤ 64 }
    requires live { All (λ q. q < places) live }
    requires holders { includes live dir.now.holders ≡ true }
    requires master { has dir.now.holders dir.now.master ≡ true }
    ensures { result ≡ filter (has (extra_holders live need dir.now.master dir.now.holders)) (below 64) }
{
    let target = need.min(live.count());
    let missing = target.saturating_sub(dir.holders.count());
    let candidates = live.difference(dir.holders);
    let _known = dir.holders.has(0);
    next_places(PlaceSet::none(), candidates, dir.master, missing)
}

/// A set of places with some more: the first candidates in ring order after a place.
pub fn next_places(places: PlaceSet, candidates: PlaceSet, after: u8, count: u32) -> PlaceSet
    requires { after < 64 }
    ensures members { (p : ℕ) → has result p ≡ (has places p || has (take count (ring after candidates)) p) }
    ensures places { IsPlaces result }
{
    let _known = candidates.has(0);
    let gathered = Gathered {
        places,
        missing: count,
    };
    let gathered = gather(gathered, candidates, after + 1, 64);
    let gathered = gather(gathered, candidates, 0, after);
    let _known = gathered.places.has(0);
    gathered.places
}

// The places so far, and how many are still missing.
#[derive(Clone, Copy)]
pub struct Gathered {
    pub places: PlaceSet,
    pub missing: u32,
}

// Adds the candidates from one place to below another, as long as some are missing.
fn gather(before: Gathered, candidates: PlaceSet, from: u8, to: u8) -> Gathered
    requires order { from ≤ to }
    requires most { to ≤ 64 }
    ensures members { (p : ℕ) → has result.places p ≡ (has before.places p
        || has (take before.missing (filter (has candidates) (range_with_len from (to - from)))) p) }
    ensures missing { result.missing ≡ before.missing
        - length (filter (has candidates) (range_with_len from (to - from))) }
{
    let mut places = before.places;
    let mut missing = before.missing;
    for p in from..to {
        if candidates.has(p) & (missing > 0) {
            places = places.with(p);
            missing -= 1;
        }
    }
    Gathered { places, missing }
}
