ghost use Rattle.std.specs.Prelude.{◌≡◌};
ghost use Rattle.gr_base.specs.Places.{IsPlaces, word_of};

use gr_base::PlaceSet;

// The number whose set bits are the places of a set.
pub(crate) fn word_of(places: PlaceSet) -> u64
    ensures { result ≡ word_of places }
{
    let mut word = 0u64;
    for p in 0..64u8 {
        if places.has(p) {
            word += 1 << p;
        }
    }
    word
}

// The places whose bits are set.
pub(crate) fn places_of(word: u64) -> PlaceSet
    ensures places { IsPlaces result }
    ensures word { word_of result ≡ word }
{
    let mut places = PlaceSet::none();
    let mut rest = word;
    for p in 0..64u8 {
        if rest % 2 == 1 {
            places = places.with(p);
        }
        rest /= 2;
    }
    places
}
