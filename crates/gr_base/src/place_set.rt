ghost use Rattle.std.specs.Prelude.{◌≡◌, ◌<◌, ◌≤◌, ◌↔◌, [], ◌∷◌, length, slice_get, IsTrue, IsNone, IfSome, IfNone};
ghost use Rattle.std.specs.List.{Contains};
ghost use Rattle.gr_base.specs.Rising.{has as is_in, without, union, includes};
ghost use Rattle.gr_base.specs.Places.{IsPlaces, below, with_place, without_place, first_from};

use std::marker::Model;

/// A set of places below 64. Contracts see the rising list of its places.
#[derive(Clone, Copy, Debug, PartialEq, Eq)]
pub struct PlaceSet {
    bits: u64,
}

impl Model for PlaceSet {
    ghost use Rattle.std.specs.Prelude.{List, ℕ, ◌<◌, ◌^◌};
    ghost use Rattle.std.proofs.Common.{ap};
    ghost use Rattle.gr_base.specs.Places.{word_of};
    ghost use Rattle.gr_base.specs.PlaceBits.{members_from, is_bit};
    ghost use Rattle.gr_base.specs.Words.{word_of-members};

    ghost Value = { List ℕ };

    ghost view = { λ s. members_from (is_bit s.bits) 0 64 };

    ghost invariant = { λ s. s.bits < 2 ^ 64 };

    ghost inverse = { λ ps. record { bits = word_of ps } };

    ghost inverse_ok = { λ s h. ap (λ (b : ℕ). record { bits = b }) (word_of-members s.bits h) };
}

impl PlaceSet {
    /// No place.
    pub fn none() -> PlaceSet
        ensures { result ≡ [] }
    {
        PlaceSet { bits: 0 }
    }

    /// The places below `count`.
    pub fn all(count: u8) -> PlaceSet
        requires { count ≤ 64 }
        ensures { result ≡ below count }
    {
        if count == 0 {
            PlaceSet { bits: 0 }
        } else {
            PlaceSet {
                bits: u64::MAX >> (64 - count),
            }
        }
    }

    pub fn has(&self, p: u8) -> bool
        requires { p < 64 }
        ensures member { IsTrue result ↔ Contains self.now p }
        ensures test { result ≡ is_in self.now p }
        ensures places { IsPlaces self.now }
    {
        (self.bits >> p) & 1 == 1
    }

    pub fn with(self, p: u8) -> PlaceSet
        requires { p < 64 }
        ensures { result ≡ with_place self p }
    {
        PlaceSet {
            bits: self.bits | (1 << p),
        }
    }

    pub fn without(self, p: u8) -> PlaceSet
        requires { p < 64 }
        ensures { result ≡ without_place self p }
    {
        PlaceSet {
            bits: self.bits & !(1 << p),
        }
    }

    /// The places that do not stand in the other set.
    pub fn difference(self, other: PlaceSet) -> PlaceSet
        ensures difference { result ≡ without self other }
        ensures places { IsPlaces self }
    {
        PlaceSet {
            bits: self.bits & !other.bits,
        }
    }

    /// The places that stand in either set.
    pub fn union(self, other: PlaceSet) -> PlaceSet
        ensures { result ≡ union self other }
    {
        PlaceSet {
            bits: self.bits | other.bits,
        }
    }

    /// Whether each place of the other set stands in this one.
    pub fn includes(self, other: PlaceSet) -> bool
        ensures { result ≡ includes self other }
    {
        other.bits & !self.bits == 0
    }

    pub fn count(&self) -> u32
        ensures { result ≡ length self.now }
    {
        self.bits.count_ones()
    }

    /// The least place. `None` only if the set is empty.
    pub fn first(self) -> Option<u8>
        ensures first { result ≡ slice_get self 0 }
        ensures place { IfSome result (λ p. p < 64) }
        ensures places { IsPlaces self }
    {
        if self.bits == 0 {
            None
        } else {
            Some(self.bits.trailing_zeros() as u8)
        }
    }

    /// The least place, and the set of the others. `None` only if the set is empty.
    ///
    /// It is how a set is walked: `while let Some((p, rest)) = left.split_first()`, with `left = rest` in the loop.
    pub fn split_first(self) -> Option<(u8, PlaceSet)>
        ensures parts { IfSome result (λ x. self ≡ x.0 ∷ x.1) }
        ensures place { IfSome result (λ x. x.0 < 64) }
        ensures places { IsPlaces self }
        ensures none { IfNone result (self ≡ []) }
    {
        let p = self.first()?;
        Some((p, self.without(p)))
    }

    /// The first place in ring order of 64 places from `start` on.
    pub fn first_from(&self, start: u8) -> Option<u8>
        requires { start < 64 }
        ensures first { result ≡ first_from self.now start }
        ensures none { IsNone result ↔ (self.now ≡ []) }
    {
        let after = self.bits & (u64::MAX << start);
        if after != 0 {
            Some(after.trailing_zeros() as u8)
        } else if self.bits != 0 {
            Some(self.bits.trailing_zeros() as u8)
        } else {
            None
        }
    }
}
